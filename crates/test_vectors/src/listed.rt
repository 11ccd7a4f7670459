// First reading and next reading, call after call, compared with the enumerator's list.
use crate::entries::Entries;
use crate::lent::{BYTE, holds, untouched};
use crate::services::{FIRST, NEXT, NO_FURTHER, NO_READING, WRITTEN, call};
use test_packed::Files;

// Whether the calls of next reading give all entries from the second on, in their order; behind the last of all, no further.
fn nexts(files: Files, entries: &Entries, buffer: &mut [u8]) -> bool {
    for entry in entries.iter().skip(1) {
        if call(files, NEXT, buffer) != WRITTEN || !holds(buffer, entry) {
            return false;
        }
    }
    if !entries.are_all() {
        return true;
    }
    let answer = call(files, NEXT, buffer);
    match entries.iter().last() {
        None => false,
        Some(last) => answer == NO_FURTHER && holds(buffer, last),
    }
}

// Whether first reading and then next readings give the list, and none where it is empty.
pub(crate) fn same_list(files: Files, entries: &Entries) -> bool {
    let mut space = [BYTE; 1028];
    let buffer: &mut [u8] = &mut space;
    let answer = call(files, FIRST, buffer);
    match entries.iter().next() {
        None => answer == NO_READING && untouched(buffer, BYTE),
        Some(first) => {
            answer == WRITTEN && holds(buffer, first) && nexts(files, entries, buffer)
        }
    }
}
