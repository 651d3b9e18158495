//! The scripts that clients' lines make.
ghost use Rattle.std.specs.Prelude.{◌≡◌, ◌≤◌, ◌++◌, ◌∷◌, [], ℕ, List, length, OnOk, OnErr, IfErr};
ghost use Rattle.std.specs.List.{AllByRecursion};
ghost use Rattle.plain_model.specs.declared.calls.Call.{Call as TransactionCall};
ghost use Rattle.plain_model.specs.Machine.{IsInRange};
ghost use Rattle.script_lines.specs.declared.grammar.Line.{Line as ScriptLine};
ghost use Rattle.script_lines.specs.Numbers.{object_slots};
ghost use Rattle.script_lines.specs.Grammar.{IsClient, IsLineInRange};
ghost use Rattle.brahma_shell.specs.LineOrder.{MayFollow, MayCome};
ghost use Rattle.brahma_shell.specs.ClientScripts.{AreScripts, AreOfCalls, AreOfLines, TellsWhether, with_call_more};

use crate::adding_lines::{add_at, add_first, place_of};
use crate::line_refusal::LineRefusal;
use client_pass::ClientScript;
use plain_model::Call;
use script_lines::Line;
use std::alloc::Global;
use std::marker::Model;

/// The scripts of the clients whose lines were taken.
#[derive(Drop)]
pub(crate) struct ClientScripts {
    alloc: Global,
    scripts: Vec<ClientScript>,
}

/// Contracts see the scripts.
impl Model for ClientScripts {
    ghost use Rattle.std.specs.Prelude.{List};
    ghost use Rattle.client_pass.specs.declared.script.ClientScript.{ClientScript};
    ghost use Rattle.brahma_shell.specs.ClientScripts.{AreScripts};

    ghost Value = { List ClientScript };

    ghost view = { λ s. s.scripts.items };

    ghost invariant = { λ s. AreScripts s.scripts.items };
}

impl ClientScripts {
    /// The scripts of no lines. It takes no memory.
    pub(crate) fn new(alloc: Global) -> ClientScripts
        ensures none { result ≡ [] }
        ensures of_no_lines { AreOfLines [] result }
    {
        ClientScripts {
            alloc,
            scripts: Vec::new(alloc),
        }
    }

    /// The scripts. Each has a client's number and the client's transactions, and no two have one client.
    pub(crate) fn scripts(&self) -> &[ClientScript]
        ensures same { result.now ≡ self.now }
        ensures kept { AreScripts self.now }
        ensures few { length self.now ≤ 64 }
    {
        self.scripts.as_slice()
    }

    /// Adds a client's call, where it may come next after the client's calls.
    fn ask(&mut self, client: u8, call: Call) -> Result<(), LineRefusal>
        requires client { IsClient client }
        requires in_range { IsInRange object_slots call }
        ensures added { OnOk result ((calls : ℕ → List TransactionCall) → AreOfCalls calls self.old →
            MayFollow (calls client) call × AreOfCalls (with_call_more calls client call) self.new) }
        ensures refused { IfErr result (λ e. (calls : ℕ → List TransactionCall) → AreOfCalls calls self.old →
            TellsWhether e (MayFollow (calls client) call)) }
        ensures unchanged { OnErr result (self.new ≡ self.old) }
    {
        match place_of(self.scripts.as_slice(), client) {
            Some(place) => add_at(&mut self.scripts, place, call, self.alloc),
            None => add_first(&mut self.scripts, client, call, self.alloc),
        }
    }

    /// Takes the next line. It is taken exactly where it may come next after the lines that were taken, unless memory is out. A
    /// line that is refused leaves the scripts as they were.
    pub(crate) fn take(&mut self, line: Line) -> Result<(), LineRefusal>
        requires { IsLineInRange line }
        ensures taken { OnOk result ((lines : List ScriptLine) → AreOfLines lines self.old →
            MayCome lines line × AreOfLines (lines ++ line ∷ []) self.new) }
        ensures refused { IfErr result (λ e. (lines : List ScriptLine) → AreOfLines lines self.old →
            TellsWhether e (MayCome lines line)) }
        ensures unchanged { OnErr result (self.new ≡ self.old) }
    {
        match line {
            Line::Nothing => Ok(()),
            Line::Ask { client, call } => self.ask(client, call),
            Line::Abort { client } => self.ask(client, Call::Abort),
            Line::Undo { .. } => Err(LineRefusal::NotAllowed),
            Line::CollectStep => Err(LineRefusal::NotAllowed),
            Line::CollectAll => Err(LineRefusal::NotAllowed),
            Line::Clean { .. } => Err(LineRefusal::NotAllowed),
            Line::Turn => Err(LineRefusal::NotAllowed),
            Line::Crash { .. } => Err(LineRefusal::NotAllowed),
        }
    }
}
