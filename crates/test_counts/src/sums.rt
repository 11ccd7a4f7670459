// The counts of all rules at a position, which add up to the total where that is exact.
use test_enumerator::{Grammar, History};
use test_packed::Files;

// What is left of the total, less the count of a rule at the position; None where the count is larger, or none is given.
fn less_count(files: Files, position: usize, rule: usize, left: u64) -> Option<u64> {
    let given = reading_counts::reading_count_at(files.grammar, files.history, position, rule);
    let count = given.ok()??;
    left.checked_sub(count)
}

// Whether the counts of all rules add up to the total at every position.
pub(crate) fn each_adds_up(files: Files, total: u64) -> bool {
    let grammar = Grammar::read(files.grammar);
    let history = History::read(files.history);
    let rules = grammar.rules().len();
    (0..=history.tokens().len()).all(|position| {
        (0..rules).try_fold(total, |left, rule| less_count(files, position, rule, left)) == Some(0)
    })
}
