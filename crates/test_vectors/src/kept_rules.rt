// Sets, compared with the rules that the enumerator's list has at each position.
use crate::entries::Entries;
use crate::lent::{WORD, untouched};
use crate::services::write_sets;
use test_packed::Files;

// Whether the four words at a position have the bits of the rules that some entry has there, and no others.
fn right_words(words: &[u32], entries: &Entries, position: usize) -> bool {
    (0..128).all(|rule| {
        let word = words.get(rule / 32).copied().unwrap_or(0);
        let bit = (word >> (rule % 32)) % 2 == 1;
        bit == entries.stands(position, rule)
    })
}

// Whether the sets are those of the entries, and the words behind them are as they were lent.
pub(crate) fn same_sets(files: Files, entries: &Entries) -> bool {
    let mut words = [WORD; 4104];
    if write_sets(files, &mut words).is_err() {
        return false;
    }
    let Some((sets, rest)) = words.split_at_checked(entries.size * 4) else {
        return false;
    };
    untouched(rest, WORD)
        && sets
            .chunks_exact(4)
            .enumerate()
            .all(|(position, words)| right_words(words, entries, position))
}
