// The services as this program asks them: by the numbers of their refusals and of the answers to calls.
use test_packed::Files;

// The kinds of calls. They and the answers stay numbers, as they stand in the bytes of a list of calls, where any kind but the first is next
// reading.
pub const FIRST: u8 = 0;

pub const NEXT: u8 = 1;

// The answers to calls; any other number is that of a refusal, as the two behind them.
pub const WRITTEN: u8 = 0;

pub const NO_READING: u8 = 100;

pub const NO_FURTHER: u8 = 101;

pub const SHORT_BUFFER: u8 = 15;

pub const NO_ENTRY: u8 = 16;

// Writes the sets, and gives the choice count.
pub(crate) fn write_sets(files: Files, words: &mut [u32]) -> Result<u32, u8> {
    sets::sets(files.grammar, files.history, words).map_err(u8::from)
}

pub(crate) fn count_choices(files: Files) -> Result<u32, u8> {
    sets::choice_count(files.grammar, files.history).map_err(u8::from)
}

pub(crate) fn write_marks(files: Files, marks: &mut [u8]) -> Result<(), u8> {
    stop_marks::stop_marks(files.grammar, files.history, marks).map_err(u8::from)
}

pub(crate) fn call(files: Files, kind: u8, buffer: &mut [u8]) -> u8 {
    calls::call(files.grammar, files.history, kind, buffer)
}

pub(crate) fn run_calls(
    files: Files,
    kinds: &[u8],
    answers: &mut [u8],
    buffer: &mut [u8],
) -> Result<(), u8> {
    let Files { grammar, history } = files;
    calls::run_calls(grammar, history, kinds, answers, buffer).map_err(u8::from)
}
