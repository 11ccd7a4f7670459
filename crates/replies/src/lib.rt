// The services' answers as C sees them: one number, or a struct with the number and the counts or the length.
#![tactic(auto)]

ghost use Rattle.std.specs.Prelude.{◌≡◌};
ghost use Rattle.replies.specs.believed.Wire.{grammar_wire, history_wire, count_wire, readings_wire, outcome_code, step_code, length_wire};
ghost use Rattle.replies.specs.Places.{place_wire};
ghost use Rattle.replies.specs.Told.{grammar_told, history_told, readings_told, number_told, told};

use capped::Count;
use files::GrammarCounts;
use step_bytes::Part;

// 0 and the counts of an accepted grammar; or the number of the refusal, and zeros.
#[repr(C)]
#[derive(Clone, Copy)]
pub struct GrammarReply {
    pub answer: u8,
    pub stages: u16,
    pub rules: u16,
}

// 0 and the number of tokens; or the number of the refusal, and 0.
#[repr(C)]
#[derive(Clone, Copy)]
pub struct HistoryReply {
    pub answer: u8,
    pub tokens: u16,
}

// 0 and the number of choices; or the number of the refusal, and 0.
#[repr(C)]
#[derive(Clone, Copy)]
pub struct CountReply {
    pub answer: u8,
    pub count: u32,
}

// 0 and the number of readings; 102 and 0 where there are more than 2^64 - 1; or the number of the refusal, and 0.
#[repr(C)]
#[derive(Clone, Copy)]
pub struct ReadingsReply {
    pub answer: u8,
    pub count: u64,
}

// Where a part of a file starts, and how many bytes it has; zeros where it is refused.
#[repr(C)]
#[derive(Clone, Copy)]
pub struct PartReply {
    pub start: usize,
    pub length: usize,
}

// 0 and the length of the file that was written; or the number of the refusal, and 0.
#[repr(C)]
#[derive(Clone, Copy)]
pub struct WriteReply {
    pub answer: u8,
    pub length: usize,
}

pub fn grammar_reply(check: Result<GrammarCounts, u8>) -> GrammarReply
    ensures { result ≡ grammar_wire (grammar_told check) }
{
    match check {
        Ok(GrammarCounts { stages, rules }) => GrammarReply {
            answer: 0,
            stages,
            rules,
        },
        Err(number) => GrammarReply {
            answer: number,
            stages: 0,
            rules: 0,
        },
    }
}

pub fn history_reply(check: Result<u16, u8>) -> HistoryReply
    ensures { result ≡ history_wire (history_told check) }
{
    match check {
        Ok(tokens) => HistoryReply { answer: 0, tokens },
        Err(number) => HistoryReply {
            answer: number,
            tokens: 0,
        },
    }
}

pub fn count_reply(given: Result<u32, u8>) -> CountReply
    ensures { result ≡ count_wire (told given) }
{
    match given {
        Ok(count) => CountReply { answer: 0, count },
        Err(number) => CountReply {
            answer: number,
            count: 0,
        },
    }
}

pub fn readings_reply(given: Result<Count, u8>) -> ReadingsReply
    ensures { result ≡ readings_wire (readings_told given) }
{
    match given {
        Ok(Some(count)) => ReadingsReply { answer: 0, count },
        Ok(None) => ReadingsReply {
            answer: 102,
            count: 0,
        },
        Err(number) => ReadingsReply {
            answer: number,
            count: 0,
        },
    }
}

// 0, or the number of the refusal.
pub fn outcome_code(outcome: Result<(), u8>) -> u8
    ensures { result ≡ outcome_code (told outcome) }
{
    match outcome {
        Ok(()) => 0,
        Err(number) => number,
    }
}

pub fn part_reply(place: Result<Part, u8>) -> PartReply
    ensures { result ≡ place_wire place }
{
    match place {
        Ok(Part { start, length }) => PartReply { start, length },
        Err(_) => PartReply {
            start: 0,
            length: 0,
        },
    }
}

// The number of the refusal, or 0 where there is none.
#[tactic(auto, using(crate::proofs::Places::same_code))]
pub fn step_code(check: Result<(), u8>) -> u8
    ensures { result ≡ step_code (number_told check) }
{
    outcome_code(check)
}

pub fn write_reply(answer: Result<usize, u8>) -> WriteReply
    ensures { result ≡ length_wire (told answer) }
{
    match answer {
        Ok(length) => WriteReply { answer: 0, length },
        Err(number) => WriteReply {
            answer: number,
            length: 0,
        },
    }
}
