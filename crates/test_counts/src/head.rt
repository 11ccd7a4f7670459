// The head of a case, 33 bytes: what is asked, what is due, the label's length; in eight bytes each k or the position, the rule, and the count
// that is due; in two bytes each the sizes of grammar, history and buffer; low bytes first.
use std::io::Read;
use test_packed::{head, u16_at, u64_at};

// What is asked, in the order of its numbers from 0 on: the count, the count at a position, reading k, whether the counts add up to a total at
// each position, every reading of a total.
#[derive(Clone, Copy)]
pub enum Question {
    Count,
    CountAt { position: usize, rule: usize },
    Reading(u64),
    Sums(u64),
    Listing(u64),
}

// No question stands where its number is not known here. What is due is the number of a refusal, or an answer: a count, or none where there
// are more than 2^64 - 1 readings; a reading is due where a count is.
#[derive(Clone, Copy)]
pub struct Head {
    pub question: Option<Question>,
    pub due: Result<Option<u64>, u8>,
    pub label: u16,
    pub grammar: u16,
    pub history: u16,
    pub buffer: u16,
}

fn question_in(bytes: &[u8; 33]) -> Option<Question> {
    let place = u64_at(bytes, 3);
    let total = u64_at(bytes, 19);
    match bytes[0] {
        0 => Some(Question::Count),
        1 => Some(Question::CountAt {
            position: place as usize,
            rule: u64_at(bytes, 11) as usize,
        }),
        2 => Some(Question::Reading(place)),
        3 => Some(Question::Sums(total)),
        4 => Some(Question::Listing(total)),
        _ => None,
    }
}

// No refusal has the number 102.
fn due_in(bytes: &[u8; 33]) -> Result<Option<u64>, u8> {
    match bytes[1] {
        0 => Ok(Some(u64_at(bytes, 19))),
        102 => Ok(None),
        number => Err(number),
    }
}

pub(crate) fn read_head<F: Read>(cases: &mut F) -> Option<Head> {
    let bytes = head::<F, 33>(cases)?;
    Some(Head {
        question: question_in(&bytes),
        due: due_in(&bytes),
        label: u16::from(bytes[2]),
        grammar: u16_at(&bytes, 27),
        history: u16_at(&bytes, 29),
        buffer: u16_at(&bytes, 31),
    })
}
