// Holds the services of step_bytes to every case of the file cases.bin: a line for each disagreement, and at the end how many cases there were.
// A case is 16 bytes (the position in eight; the number of the refusal that is due, 0 where there is a step; the label's length; then in two
// bytes each the first byte of the part that is due, how many there are, and the history's length; low bytes first), then label and history.
#![tactic(auto)]

use refusal::Refusal;
use std::io::Read;
use std::{fs, io};
use step_bytes::Part;
use test_packed::{for_each_case, head, part, u16_at, u64_at};

// The answer that is due: the number of the refusal, if there is no step; and the part, which has no bytes then.
#[derive(Clone, Copy)]
struct Due {
    refusal: Option<u8>,
    part: Part,
}

impl Due {
    fn place(self) -> Result<Part, u8> {
        match self.refusal {
            None => Ok(self.part),
            Some(number) => Err(number),
        }
    }
}

// The head of a case: the position, what is due there, and the sizes of label and history.
#[derive(Clone, Copy)]
struct Head {
    position: usize,
    due: Due,
    label: u16,
    history: u16,
}

fn read_head<F: Read>(cases: &mut F) -> Option<Head> {
    let bytes = head::<F, 16>(cases)?;
    let number = bytes[8];
    let part = Part {
        start: usize::from(u16_at(&bytes, 10)),
        length: usize::from(u16_at(&bytes, 12)),
    };
    Some(Head {
        position: u64_at(&bytes, 0) as usize,
        due: Due {
            refusal: (number != 0).then_some(number),
            part,
        },
        label: u16::from(bytes[9]),
        history: u16_at(&bytes, 14),
    })
}

// The number of the refusal, if step_check refuses.
fn refusal_of(given: Result<(), Refusal>) -> Option<u8> {
    given.err().map(u8::from)
}

// The part that locate finds, or the number of its refusal.
fn place_of(given: Result<Part, Refusal>) -> Result<Part, u8> {
    given.map_err(u8::from)
}

// Whether step_bytes hands back as many bytes as are due, and those.
fn same_bytes(history: &[u8], position: usize, part: Part) -> bool {
    let given = step_bytes::step_bytes(history, position);
    given.len() == part.length
        && history
            .get(part.start..)
            .is_some_and(|rest| rest.starts_with(given))
}

// Writes a line where the two differ; each program names its own numbers there, so that one function for all would take six arguments.
fn tell(rt: &impl Print, same: bool, what: &str, label: &[u8], position: usize) -> io::Result<()> {
    if same {
        return Ok(());
    }
    rt.write_all(label)?;
    println!(rt; ", position {position}: {what} DIFFERS")
}

fn run_case<F: Read>(rt: &impl Print, cases: &mut F, head: Head) -> io::Result<()> {
    let Head { position, due, .. } = head;
    let mut label = [0u8; 4096];
    let mut history = [0u8; 4096];
    let label = part(cases, head.label, &mut label);
    let history = part(cases, head.history, &mut history);
    let bytes = same_bytes(history, position, due.part);
    tell(rt, bytes, "step_bytes", label, position)?;
    let refusal = refusal_of(step_bytes::step_check(history, position));
    tell(rt, refusal == due.refusal, "step_check", label, position)?;
    let place = place_of(step_bytes::locate(history, position));
    tell(rt, place == due.place(), "locate", label, position)
}

fn main(rt: HostRuntime) -> io::Result<()> {
    let mut cases = fs::open(&rt, "cases.bin")?;
    let count = for_each_case(
        &mut cases,
        read_head,
        |cases, head, _| run_case(&rt, cases, head),
    )?;
    println!(rt; "{count} cases compared")
}
