// What a case asks, answered by the services and compared with what is due.
use crate::head::{Head, Question};
use test_packed::Files;

// Whether a reading is written where a count is due, or the number is the one that is due.
fn same_outcome(given: Result<(), u8>, due: Result<Option<u64>, u8>) -> bool {
    match due {
        Ok(Some(_)) => given == Ok(()),
        Ok(None) => false,
        Err(number) => given == Err(number),
    }
}

// Whether the answer is the one that is due; false where nothing is asked that is known here.
pub(crate) fn same_answer(files: Files, head: Head, buffer: &mut [u8]) -> bool {
    let Some(question) = head.question else {
        return false;
    };
    let Files { grammar, history } = files;
    match question {
        Question::Count => {
            let given = reading_counts::reading_count(grammar, history);
            given.map_err(u8::from) == head.due
        }
        Question::CountAt { position, rule } => {
            let given = reading_counts::reading_count_at(grammar, history, position, rule);
            given.map_err(u8::from) == head.due
        }
        Question::Reading(k) => {
            let given = reading_counts::reading_at(grammar, history, k, buffer);
            same_outcome(given.map_err(u8::from), head.due)
        }
        Question::Sums(total) => crate::sums::each_adds_up(files, total),
        Question::Listing(total) => crate::listed::same_readings(files, total),
    }
}
