// All readings of a history as the enumerator finds them, one behind the other.
ghost use Rattle.std.specs.Prelude.{◌<◌, ◌≤◌, length};
ghost use Rattle.std.specs.Slice.Iter.{chunks_exact_size};

use std::slice::ChunksExact;
use test_enumerator::{Found, Search};

// The readings that are listed, the size of each, and what the enumerator came to behind the last of them.
#[derive(Drop)]
pub struct Entries<'a> {
    pub bytes: &'a [u8],
    pub size: usize,
    pub behind: Found,
    ghost sized: { (0 < size) × (size ≤ 1025) },
}

impl<'a> Entries<'a> {
    pub(crate) fn iter(&self) -> ChunksExact<'a, u8>
        ensures { 0 < chunks_exact_size result }
    {
        self.bytes.chunks_exact(self.size)
    }

    pub(crate) fn count(&self) -> usize {
        self.bytes.len() / self.size
    }

    // Whether these are all readings.
    pub(crate) fn are_all(&self) -> bool {
        self.behind == Found::NoReading
    }

    // Whether some entry has the rule at the position.
    pub(crate) fn stands(&self, position: usize, rule: usize) -> bool {
        self.iter().any(|entry| entry.get(position).is_some_and(|x| usize::from(*x) == rule))
    }
}

// Whether the first i tokens alone have a reading.
pub(crate) fn readable(search: &Search, i: usize) -> bool {
    let Some(tokens) = search.tokens.get(..i) else {
        return false;
    };
    let prefix = Search {
        start: search.start,
        rules: search.rules,
        tokens,
    };
    prefix.first(&mut [0u8; 1025]) == Found::Reading
}

// Writes the readings in their order, as many as the list holds.
pub(crate) fn enumerate<'a>(search: &Search, list: &'a mut [u8]) -> Entries<'a>
    requires { length search.now.tokens.now ≤ 1024 }
{
    let size = search.tokens.len() + 1;
    let mut space = [0u8; 1025];
    let path = &mut space[..size];
    let mut found = search.first(path);
    let mut end: usize = 0;
    for entry in list.chunks_exact_mut(size) {
        if found != Found::Reading {
            break;
        }
        entry.copy_from_slice(path);
        end += size;
        found = search.next(path);
    }
    Entries {
        bytes: &list[..end],
        size,
        behind: found,
    }
}
