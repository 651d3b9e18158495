//! What the words ask the program to do.
ghost use Rattle.std.specs.Prelude.{◌≡◌, IfOk, OnErr, Option, map, string_bytes, codes};
ghost use Rattle.brahma_shell.specs.Commands.{AskOptions, command_of, command_of_word, command_of_two, command_of_more};

use crate::words::Words;
use call_generator::{Asked, asked_of};
use plain_model::Memory;
use script_lines::pages_of;
use std::alloc::Global;

/// What the words ask the program to do.
#[derive(Clone, Copy, PartialEq, Eq, Debug)]
pub enum Command {
    /// `init N`: makes the disk anew as a fresh store of so many pages, from 1 to 1,024.
    Init { pages: u16 },
    /// `replay`: does a script, line by line, and prints what it answers.
    Replay,
    /// `run`: reads a whole script of clients' calls, does each client's on a thread of its own with the collector beside them,
    /// collects, and prints what happened.
    Run,
    /// `gen --seed S --clients C --txns T`: does calls that are drawn from a seed, collects, and prints what happened.
    Gen(Asked),
    /// `audit`: counts all pointers of the store again, and prints what it found.
    Audit,
    /// `paudit N`: counts all pointers of the store again and what is garbage, by so many pieces on several threads, from 1 to
    /// 1,024, and prints what it found.
    ParAudit { pieces: u16 },
    /// `migrate`: makes a store of version 1, whose objects have six slots, one of version 2, in which they have fourteen, and prints how
    /// many pages it has.
    Migrate,
    /// `backup`: makes a checkpoint, and writes the base of a stream: the number of pages, and the pages.
    Backup,
    /// `ship`: writes the bytes of the current log, which follow a base in a stream. It doesn't open the store.
    Ship,
    /// `log`: writes the current log as text, a line for each record. It doesn't open the store.
    Log,
    /// `standby`: makes the disk anew as the store of the stream that the source gives, a base and a log after it.
    Standby,
    /// `check`: tells whether the store of the stream that the source gives is the effect of just the commits in it. It asks the disk
    /// for nothing.
    Check,
    /// `map`: does lines over the ordered map that the store keeps, each one transaction, and prints what they answer.
    Map,
}

/// The command that one word names.
fn command_of_word(word: &[u8]) -> Option<Command>
    ensures { result ≡ command_of_word word.now }
{
    match word {
        b"replay" => Some(Command::Replay),
        b"run" => Some(Command::Run),
        b"audit" => Some(Command::Audit),
        b"migrate" => Some(Command::Migrate),
        b"backup" => Some(Command::Backup),
        b"ship" => Some(Command::Ship),
        b"log" => Some(Command::Log),
        b"standby" => Some(Command::Standby),
        b"check" => Some(Command::Check),
        b"map" => Some(Command::Map),
        _ => None,
    }
}

/// The command that a word names with a number after it.
fn command_of_two(word: &[u8], number: &[u8]) -> Option<Command>
    ensures { result ≡ command_of_two word.now number.now }
{
    match word {
        b"init" => Some(Command::Init {
            pages: pages_of(number)?,
        }),
        b"paudit" => Some(Command::ParAudit {
            pieces: pages_of(number)?,
        }),
        _ => None,
    }
}

/// The command that a word names with more than one word after it. Those of `gen` are options, whose reading takes memory.
fn command_of_more(alloc: Global, word: &[u8], words: &[String]) -> Result<Option<Command>, Memory>
    ensures value { IfOk result (λ command. command ≡ command_of_more word.now (map string_bytes words.now)) }
    ensures memory { OnErr result (word.now ≡ codes "gen") }
{
    match word {
        b"gen" => match asked_of(alloc, words)? {
            Some(asked) => Ok(Some(Command::Gen(asked))),
            None => Ok(None),
        },
        _ => Ok(None),
    }
}

impl Command {
    /// What the words ask, where they have a reading. Only the options of `gen` take memory.
    pub fn of(alloc: Global, words: &Words) -> Result<Option<Command>, Memory>
        ensures value { IfOk result (λ command. command ≡ command_of words.now) }
        ensures memory { OnErr result (AskOptions words.now) }
    {
        match words.items() {
            [word] => Ok(command_of_word(word.as_bytes())),
            [word, number] => Ok(command_of_two(word.as_bytes(), number.as_bytes())),
            [word, words @ ..] => command_of_more(alloc, word.as_bytes(), words),
            [] => Ok(None),
        }
    }
}
