// Refusals: every service answers the number that is due, and leaves what it was lent.
ghost use Rattle.std.specs.Prelude.{◌≤◌};

use crate::lent::{BYTE, WORD, untouched};
use crate::services::{
    FIRST, NEXT, SHORT_BUFFER, call, count_choices, run_calls, write_marks, write_sets,
};
use test_packed::Files;

fn call_refused(files: Files, kind: u8, buffer: &mut [u8], due: u8) -> bool {
    call(files, kind, buffer) == due && untouched(buffer, BYTE)
}

fn sets_refused(files: Files, words: &mut [u32], due: u8) -> bool {
    write_sets(files, words) == Err(due) && untouched(words, WORD)
}

fn marks_refused(files: Files, marks: &mut [u8], due: u8) -> bool {
    write_marks(files, marks) == Err(due) && untouched(marks, BYTE)
}

// Whether each service that is lent a buffer of bytes or words answers the number.
fn buffers_refused(files: Files, buffer: &mut [u8], words: &mut [u32], due: u8) -> bool {
    call_refused(files, FIRST, buffer, due)
        && call_refused(files, NEXT, buffer, due)
        && sets_refused(files, words, due)
        && marks_refused(files, buffer, due)
}

// Whether every service answers the number of the file's fault.
pub(crate) fn all_refused(files: Files, due: u8) -> bool {
    let mut bytes = [BYTE; 1028];
    let mut words = [WORD; 4104];
    buffers_refused(files, &mut bytes, &mut words, due) && count_choices(files) == Err(due)
}

// Whether each service refuses a buffer that is one element too short.
pub(crate) fn short_refused(files: Files, n: usize) -> bool
    requires { n ≤ 1024 }
{
    let mut bytes = [BYTE; 1028];
    let mut words = [WORD; 4104];
    buffers_refused(
        files,
        &mut bytes[..n],
        &mut words[..4 * n + 3],
        SHORT_BUFFER,
    )
}

// Whether a list of calls is refused where one answer too few can be written.
pub(crate) fn calls_refused(files: Files) -> bool {
    let mut answers = [BYTE; 2];
    let mut buffer = [BYTE; 1028];
    let made = run_calls(files, &[FIRST, NEXT, NEXT], &mut answers, &mut buffer);
    made == Err(SHORT_BUFFER) && untouched(&answers, BYTE) && untouched(&buffer, BYTE)
}
