// Holds the services of reading_counts to every case of cases.bin: a line for each disagreement, then how many cases there were.
// A case: its head, the label, the grammar, the history, the buffer before the call, and the same after it.
#![tactic(auto)]

mod answers;
mod head;
mod listed;
mod sums;

use head::{Head, read_head};
use std::io::Read;
use std::{fs, io};
use test_packed::{Files, for_each_case, part};

// Writes a line where the two differ.
fn tell(rt: &impl Print, same: bool, what: &str, number: u32, label: &[u8]) -> io::Result<()> {
    if same {
        return Ok(());
    }
    print!(rt; "case {number}, ")?;
    rt.write_all(label)?;
    println!(rt; ": {what} DIFFERS")
}

// Compares the answer, and every byte of the buffer.
fn run_case<F: Read>(rt: &impl Print, cases: &mut F, head: Head, number: u32) -> io::Result<()> {
    let mut label = [0u8; 4096];
    let mut grammar = [0u8; 4096];
    let mut history = [0u8; 4096];
    let mut buffer = [0u8; 4096];
    let mut after = [0u8; 4096];
    let label = part(cases, head.label, &mut label);
    let files = Files {
        grammar: part(cases, head.grammar, &mut grammar),
        history: part(cases, head.history, &mut history),
    };
    let buffer = part(cases, head.buffer, &mut buffer);
    let after = part(cases, head.buffer, &mut after);
    let answered = answers::same_answer(files, head, buffer);
    tell(rt, answered, "the answer", number, label)?;
    tell(rt, *buffer == *after, "the buffer", number, label)
}

fn main(rt: HostRuntime) -> io::Result<()> {
    let mut cases = fs::open(&rt, "cases.bin")?;
    let count = for_each_case(&mut cases, read_head, |cases, head, number| {
        run_case(&rt, cases, head, number)
    })?;
    println!(rt; "{count} cases compared")
}
