// Stop marks, compared with what the enumerator finds of each prefix alone.
use crate::entries::readable;
use crate::lent::{BYTE, untouched};
use crate::services::write_marks;
use test_enumerator::Search;
use test_packed::Files;

// Whether each mark is 1 where the tokens before its position have a reading, and else 0, and the bytes behind them are as they were lent.
pub(crate) fn same_marks(files: Files, search: &Search) -> bool {
    let mut space = [BYTE; 1028];
    if write_marks(files, &mut space).is_err() {
        return false;
    }
    let Some((marks, rest)) = space.split_at_checked(search.tokens.len() + 1) else {
        return false;
    };
    untouched(rest, BYTE)
        && marks
            .iter()
            .enumerate()
            .all(|(i, mark)| *mark == u8::from(readable(search, i)))
}
