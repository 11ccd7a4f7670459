// Holds both writers to every case of cases.bin: a line for each disagreement, then how many cases there were. A case: 0 for a grammar or 1 for
// a history, the number of the refusal due or 0, the label's length; in two bytes each, low byte first, the length due, the sizes of elements and
// buffer; then label, elements (four bytes each, low byte first), the buffer before the call, and after it.
#![tactic(auto)]

ghost use Rattle.std.specs.Prelude.{◌≤◌};

use refusal::Refusal;
use std::io::Read;
use std::{fs, io};
use test_packed::{for_each_case, head, part, u16_at};

// As many elements as a case may have.
const MOST: usize = 5000;

// The writer that a case is about.
#[derive(Clone, Copy)]
enum Writer {
    Grammar,
    History,
}

// The head of a case: its writer, the file's length or the number of the refusal that is due, and the sizes of its parts.
#[derive(Clone, Copy)]
struct Head {
    writer: Writer,
    due: Result<usize, u8>,
    label: u16,
    packed: u16,
    buffer: u16,
}

fn read_head<F: Read>(cases: &mut F) -> Option<Head> {
    let bytes = head::<F, 9>(cases)?;
    let writer = match bytes[0] {
        0 => Writer::Grammar,
        _ => Writer::History,
    };
    let due = match bytes[1] {
        0 => Ok(usize::from(u16_at(&bytes, 3))),
        number => Err(number),
    };
    Some(Head {
        writer,
        due,
        label: u16::from(bytes[2]),
        packed: u16_at(&bytes, 5),
        buffer: u16_at(&bytes, 7),
    })
}

// Writes the elements that the bytes hold to the start of the list, as many as it holds, and gives how many these are.
fn unpack(packed: &[u8], elements: &mut [u32; MOST]) -> usize
    ensures { result ≤ 5000 }
{
    let (packed, _) = packed.as_chunks::<4>();
    for (element, bytes) in elements.iter_mut().zip(packed) {
        *element = u32::from_le_bytes(*bytes);
    }
    packed.len().min(MOST)
}

// Calls the writer with the elements that the bytes hold.
fn write(writer: Writer, packed: &[u8], buffer: &mut [u8]) -> Result<usize, Refusal> {
    let mut elements = [0u32; MOST];
    let count = unpack(packed, &mut elements);
    let elements = &elements[..count];
    match writer {
        Writer::Grammar => writers::write_grammar(elements, buffer),
        Writer::History => writers::write_history(elements, buffer),
    }
}

// The length of the file that is written, or the number of the refusal.
fn outcome_of(given: Result<usize, Refusal>) -> Result<usize, u8> {
    given.map_err(u8::from)
}

// Writes a line where the two differ.
fn tell(rt: &impl Print, same: bool, what: &str, label: &[u8], size: usize) -> io::Result<()> {
    if same {
        return Ok(());
    }
    rt.write_all(label)?;
    println!(rt; ", buffer of {size}: {what} DIFFERS")
}

// Compares the writer's answer, and every byte of the buffer.
fn run_case<F: Read>(rt: &impl Print, cases: &mut F, head: Head) -> io::Result<()> {
    let mut label = [0u8; 4096];
    let mut packed = [0u8; 65536];
    let mut buffer = [0u8; 4096];
    let mut after = [0u8; 4096];
    let label = part(cases, head.label, &mut label);
    let packed = part(cases, head.packed, &mut packed);
    let buffer = part(cases, head.buffer, &mut buffer);
    let after = part(cases, head.buffer, &mut after);
    let given = outcome_of(write(head.writer, packed, buffer));
    let size = after.len();
    tell(rt, given == head.due, "the answer", label, size)?;
    tell(rt, *buffer == *after, "the buffer", label, size)
}

fn main(rt: HostRuntime) -> io::Result<()> {
    let mut cases = fs::open(&rt, "cases.bin")?;
    let count = for_each_case(
        &mut cases,
        read_head,
        |cases, head, _| run_case(&rt, cases, head),
    )?;
    println!(rt; "{count} cases compared")
}
