// The choice count, compared with the rules that the enumerator's list has at each position.
use crate::entries::Entries;
use crate::services::{count_choices, write_sets};
use crate::shown::{say_choices, tell};
use std::io;
use test_enumerator::Rule;
use test_packed::Files;

// Whether some entry has at the position a rule of the stage whose number is smaller than the given one.
fn smaller_stands(
    rules: &[Rule],
    entries: &Entries,
    position: usize,
    number: usize,
    stage: u32,
) -> bool {
    rules.iter().take(number).enumerate().any(|(smaller, rule)| rule.left == stage
        && entries.stands(position, smaller))
}

// Whether two entries have different rules of one stage at the position.
fn is_choice(rules: &[Rule], entries: &Entries, position: usize) -> bool {
    rules.iter().enumerate().any(|(number, rule)| {
        entries.stands(position, number)
            && smaller_stands(rules, entries, position, number, rule.left)
    })
}

// How many positions are a choice.
fn choices(rules: &[Rule], entries: &Entries) -> usize {
    (0..entries.size)
        .filter(|position| is_choice(rules, entries, *position))
        .count()
}

// Writes the service's choice count, and how it compares with the one that comes with the sets and with the list.
pub(crate) fn compare_count(
    rt: &impl Print,
    files: Files,
    rules: &[Rule],
    entries: &Entries,
) -> io::Result<()> {
    let Ok(count) = count_choices(files) else {
        return tell(rt, "choice count", false);
    };
    say_choices(rt, count)?;
    let with_sets = write_sets(files, &mut [0u32; 4104]);
    tell(rt, "with sets", with_sets == Ok(count))?;
    let several = !entries.are_all() || 1 < entries.count();
    tell(rt, "several readings", several == (0 < count))?;
    if entries.are_all() {
        tell(
            rt,
            "choice count",
            count as usize == choices(rules, entries),
        )?;
    }
    Ok(())
}
