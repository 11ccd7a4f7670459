// Runs the checks on every case of the file cases.bin and prints a line for each: its label and the answer.
// A case is four bytes (0 for a grammar, 1 for a history; the label's length; the file's length, low byte first),
// then the label and the file.
#![tactic(auto)]

use files::GrammarCounts;
use refusal::Refusal;
use std::io::Read;
use std::{fs, io};
use test_packed::{for_each_case, head, part, u16_at};

// The check that a case is about.
#[derive(Clone, Copy)]
enum Check {
    Grammar,
    History,
}

// The head of a case: its check, and the sizes of its parts.
#[derive(Clone, Copy)]
struct Head {
    check: Check,
    label: u16,
    file: u16,
}

fn read_head<F: Read>(cases: &mut F) -> Option<Head> {
    let bytes = head::<F, 4>(cases)?;
    let check = match bytes[0] {
        0 => Check::Grammar,
        _ => Check::History,
    };
    Some(Head {
        check,
        label: u16::from(bytes[1]),
        file: u16_at(&bytes, 2),
    })
}

fn print_refusal(rt: &impl Print, refusal: Refusal) -> io::Result<()> {
    let number = u8::from(refusal);
    print!(rt; "refused {number}")
}

fn print_grammar_check(rt: &impl Print, file: &[u8]) -> io::Result<()> {
    match files::grammar_check(file) {
        Ok(GrammarCounts { stages, rules }) => print!(rt; "accepted {stages} {rules}"),
        Err(refusal) => print_refusal(rt, refusal),
    }
}

fn print_history_check(rt: &impl Print, file: &[u8]) -> io::Result<()> {
    match files::history_check(file) {
        Ok(tokens) => print!(rt; "accepted {tokens}"),
        Err(refusal) => print_refusal(rt, refusal),
    }
}

fn run_case<F: Read>(rt: &impl Print, cases: &mut F, head: Head) -> io::Result<()> {
    let mut label = [0u8; 4096];
    let mut file = [0u8; 4096];
    let label = part(cases, head.label, &mut label);
    let file = part(cases, head.file, &mut file);
    rt.write_all(label)?;
    print!(rt; ": ")?;
    match head.check {
        Check::Grammar => print_grammar_check(rt, file)?,
        Check::History => print_history_check(rt, file)?,
    }
    println!(rt; "")
}

fn main(rt: HostRuntime) -> io::Result<()> {
    let mut cases = fs::open(&rt, "cases.bin")?;
    for_each_case(
        &mut cases,
        read_head,
        |cases, head, _| run_case(&rt, cases, head),
    )?;
    Ok(())
}
