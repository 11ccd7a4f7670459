// Writes the listing of every case: those of cases.bin in one piece each, those of random.bin in pieces of 4,096 bytes.
// A case is four bytes (the grammar's length and the history's, low byte first), then the grammar and the history, the first 4,096 bytes of each.
#![tactic(auto)]

use std::io::Read;
use std::rt::Files;
use std::{fs, io};
use streams::Sink;
use test_packed::{for_each_case, head, part, u16_at};

// The sizes of a case's files.
#[derive(Clone, Copy)]
struct Head {
    grammar: u16,
    history: u16,
}

fn read_head<F: Read>(cases: &mut F) -> Option<Head> {
    let bytes = head::<F, 4>(cases)?;
    Some(Head {
        grammar: u16_at(&bytes, 0),
        history: u16_at(&bytes, 2),
    })
}

// Writes the listing of the next case, in pieces as large as the text.
fn run_case<F: Read>(
    rt: &impl Print,
    cases: &mut F,
    head: Head,
    text: &mut [u8],
) -> io::Result<()> {
    let mut grammar = [0u8; 4096];
    let mut history = [0u8; 4096];
    let grammar = part(cases, head.grammar, &mut grammar);
    let history = part(cases, head.history, &mut history);
    let mut sink = Sink::new(io::writer(rt));
    listing_output::write_listing(grammar, history, text, &mut sink);
    sink.outcome()
}

fn show_file(rt: &(impl Files + Print), name: &str, text: &mut [u8]) -> io::Result<()> {
    let mut cases = fs::open(rt, name)?;
    for_each_case(
        &mut cases,
        read_head,
        |cases, head, _| run_case(rt, cases, head, text),
    )?;
    Ok(())
}

// No listing of cases.bin has more than 65,536 bytes.
fn main(rt: HostRuntime) -> io::Result<()> {
    show_file(&rt, "cases.bin", &mut [0u8; 65536])?;
    show_file(&rt, "random.bin", &mut [0u8; 4096])
}
