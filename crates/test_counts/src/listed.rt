// Every reading by its number, compared with the readings that the plain enumerator lists.
use test_enumerator::{Found, Grammar, History, Search};
use test_packed::Files;

// What a buffer holds before a call: no rule has this number.
const FILLER: u8 = 200;

// Whether reading k is the enumerator's path; both have fillers behind the last position.
fn same_reading(files: Files, k: u64, path: &[u8; 1028]) -> bool {
    let mut buffer = [FILLER; 1028];
    let given = reading_counts::reading_at(files.grammar, files.history, k, &mut buffer);
    given.is_ok() && buffer == *path
}

// Whether the enumerator lists as many readings as the total says, each being the reading of its number.
pub(crate) fn same_readings(files: Files, total: u64) -> bool {
    let grammar = Grammar::read(files.grammar);
    let history = History::read(files.history);
    let search = Search {
        start: grammar.start,
        rules: grammar.rules(),
        tokens: history.tokens(),
    };
    let mut path = [FILLER; 1028];
    let mut found = search.first(&mut path);
    for k in 1..=total {
        if found != Found::Reading || !same_reading(files, k, &path) {
            return false;
        }
        found = search.next(&mut path);
    }
    found == Found::NoReading
}
