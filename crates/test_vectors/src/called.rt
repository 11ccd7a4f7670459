// A list of calls on one buffer, compared with document 01's plain listing over the enumerator's list.
ghost use Rattle.std.specs.Prelude.{◌<◌, ◌≤◌, length};
ghost use Rattle.std.specs.Slice.Iter.{chunks_exact_size};

use crate::entries::Entries;
use crate::lent::BYTE;
use crate::services::{FIRST, NO_ENTRY, NO_FURTHER, NO_READING, SHORT_BUFFER, WRITTEN, run_calls};
use std::slice::ChunksExact;
use test_packed::Files;

// The plain listing's state: the entry that its buffer holds, if any, and those behind it.
#[derive(Drop)]
struct Place<'a> {
    entry: Option<&'a [u8]>,
    behind: ChunksExact<'a, u8>,
    ghost sized: { 0 < chunks_exact_size behind },
}

// The place of the entry that the buffer begins with.
fn place_in<'a>(entries: &Entries<'a>, buffer: &[u8]) -> Place<'a> {
    let mut behind = entries.iter();
    let entry = behind.find(|entry| buffer.starts_with(entry));
    Place { entry, behind }
}

// Goes to the entry that the plain listing gives at one call, and answers as it does.
fn called<'a>(place: &mut Place<'a>, entries: &Entries<'a>, kind: u8) -> u8 {
    if kind == FIRST {
        place.behind = entries.iter();
    } else if place.entry.is_none() {
        return NO_ENTRY;
    }
    match place.behind.next() {
        Some(entry) => {
            place.entry = Some(entry);
            WRITTEN
        }
        None if kind == FIRST => NO_READING,
        None => NO_FURTHER,
    }
}

// Writes the answers that are due and, over the buffer as it was lent, the entry that is due.
fn foresee(kinds: &[u8], entries: &Entries, answers: &mut [u8], buffer: &mut [u8]) {
    let short = buffer.len() < entries.size;
    let mut place = place_in(entries, buffer);
    for (answer, kind) in answers.iter_mut().zip(kinds) {
        *answer = if short {
            SHORT_BUFFER
        } else {
            called(&mut place, entries, *kind)
        };
    }
    if let Some(entry) = place.entry
        && let Some(start) = buffer.get_mut(..entry.len())
    {
        start.copy_from_slice(entry);
    }
}

// Whether the calls give the answers of the plain listing and leave its buffer. The answers are as they were lent before.
pub(crate) fn same_calls(
    files: Files,
    kinds: &[u8],
    answers: &mut [u8; 300],
    buffer: &mut [u8],
    entries: &Entries,
) -> bool
    requires { length buffer.old ≤ 4096 }
{
    let mut due_answers = [BYTE; 300];
    let mut space = [0u8; 4096];
    let due_buffer = &mut space[..buffer.len()];
    due_buffer.copy_from_slice(buffer);
    foresee(kinds, entries, &mut due_answers, due_buffer);
    run_calls(files, kinds, answers, buffer).is_ok()
        && *answers == due_answers
        && *buffer == *due_buffer
}
