//! Clients beside one another after the word `run` of the program.

ghost use Rattle.std.specs.Prelude.{◌≤◌};

use crate::gates::{HeldCalls, each_second_call};
use brahma_shell::{SLOTS, Words, brahma};
use client_pass::{Gate, OpenGate};
use disk_model::{Disk, MemoryDisk};
use outside_io::{MemorySink, MemorySource};
use restart_store::init;
use std::alloc::{AllocError, Global};
use std::process::Abort;
use std::sync::Wait;
use std::test::Fail;
use std::thread::Threads;

/// Makes two objects that the root names.
const MAKING: &str = "1 begin\n1 make 1\n1 store 0 0 1\n1 make 2\n1 store 0 1 2\n1 commit\n";

/// Two clients that each write one of them.
const WRITING: &str =
    "1 begin\n1 read 0 0 1\n1 set 1 5\n1 commit\n2 begin\n2 read 0 1 1\n2 set 1 6\n2 commit\n";

/// What the program answers and writes.
#[derive(Debug, Drop)]
struct Answered {
    status: u8,
    output: Vec<u8>,
}

/// A new disk in memory that holds a store of so many pages.
fn disk_of(alloc: Global, pages: u16) -> Result<MemoryDisk, AllocError>
    requires { (1 ≤ pages) × (pages ≤ 1024) }
{
    let mut disk = MemoryDisk::new(alloc);
    match init::<_, SLOTS>(&mut disk, pages) {
        Ok(()) => Ok(disk),
        Err(_) => Err(AllocError),
    }
}

/// The word, for the program.
fn words_of(alloc: Global, word: &str) -> Result<Words, AllocError> {
    let mut words = Words::new(alloc);
    words.push(word)?;
    Ok(words)
}

/// Does what the word asks for, with this script, and hands the disk on. A run needs none of the clauses of the program's call,
/// and so it is made in this function alone, which has none.
fn answer<D: Disk, G: Gate, R: Threads + Wait + AllocGlobal + Sync>(
    rt: &R,
    alloc: Global,
    word: &str,
    script: &str,
    disk: D,
    gate: &G,
) -> Result<(Answered, D), AllocError> {
    let words = words_of(alloc, word)?;
    let mut source = MemorySource::new(Vec::from_slice(alloc, script.as_bytes())?, Vec::new(alloc));
    let mut sink = MemorySink::new(alloc, Vec::new(alloc));
    let (status, ended) = brahma(rt, &words, &mut source, &mut sink, disk, gate);
    let output = Vec::from_slice(alloc, sink.bytes())?;
    Ok((Answered { status, output }, ended.disk()))
}

/// What a run of two clients writes whose calls overlap.
fn overlapped<D: Disk, R: Threads + Wait + AllocGlobal + Sync>(
    rt: &R,
    alloc: Global,
    disk: D,
    gate: &HeldCalls,
) -> Result<Answered, AllocError> {
    let (_, disk) = answer(rt, alloc, "replay", MAKING, disk, &OpenGate)?;
    let (answered, _) = answer(rt, alloc, "run", WRITING, disk, gate)?;
    Ok(answered)
}

/// All was done, and this is the last of so many lines.
fn expect(rt: &impl Abort, answered: &Answered, lines: usize, last: &str) {
    let output = answered.output.as_slice();
    let count = output.iter().filter(|byte| **byte == b'\n').count();
    let right = answered.status == 0 && count == lines && output.ends_with(last.as_bytes());
    assert!(rt; right, "{answered:?}");
}

#[test]
fn clients_of_the_program_overlap(rt: HostRuntime) -> Result<(), Fail> {
    let gate = each_second_call();
    let disk = disk_of(rt.alloc(), 1)?;
    let answered = overlapped(&rt, rt.alloc(), disk, &gate)?;
    assert!(rt; !gate.has_missed(), "a call waited in vain");
    // four calls of each client
    expect(&rt, &answered, 9, "\nstored 1 2 3\n");
    Ok(())
}
