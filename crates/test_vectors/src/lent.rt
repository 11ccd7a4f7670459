// What is lent to the services: bytes and words that hold fillers before a call.

// A byte that is lent.
pub const BYTE: u8 = 7;

// A word that is lent.
pub const WORD: u32 = 4026531847;

// Whether all of them are as they were lent.
pub(crate) fn untouched<T: Copy + PartialEq>(lent: &[T], filler: T) -> bool {
    lent.iter().all(|x| *x == filler)
}

// Whether the buffer begins with the entry, and is behind it as it was lent.
pub(crate) fn holds(buffer: &[u8], entry: &[u8]) -> bool {
    match buffer.strip_prefix(entry) {
        None => false,
        Some(rest) => untouched(rest, BYTE),
    }
}
