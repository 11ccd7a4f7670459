// A whole list of the calls first reading and next reading on one buffer.
#![tactic(auto)]

ghost use Rattle.std.specs.Prelude.{◌≡◌, length};
ghost use Rattle.listing_model.specs.Calls.{call_on};
ghost use Rattle.readings.specs.believed.Answers.{subject};
ghost use Rattle.service.specs.believed.Given.{outcome_said};
ghost use Rattle.service.specs.believed.Opened.{files_in};
ghost use Rattle.refusal.specs.believed.Refusal.{number};
ghost use Rattle.calls.specs.believed.CallList.{code_of, call_of, coded, no_room, calls_due};
ghost use Rattle.calls.specs.Told.{told};

use first_run::Answer;
use refusal::Refusal;
use service::Contents;

// An answer as a byte: 0 for a reading written, 100 for none, 101 for no further, else the number of the refusal, which may be any.
pub fn code_of(answer: Result<Answer, u8>) -> u8
    ensures { result ≡ code_of (told answer) }
{
    match answer {
        Ok(Answer::Written) => 0,
        Ok(Answer::NoReading) => 100,
        Ok(Answer::NoFurther) => 101,
        Err(number) => number,
    }
}

// One call: 0 is first reading, any other number next reading.
#[tactic(auto, using(crate::proofs::Told::told_said))]
pub fn call(grammar: &[u8], history: &[u8], kind: u8, buffer: &mut [u8]) -> u8
    ensures { (result, buffer.new) ≡ coded (call_on (subject grammar.now history.now (length buffer.old)) (call_of kind) buffer.old) }
{
    let answer = match kind {
        0 => readings::first_reading(grammar, history, buffer),
        _ => readings::next_reading(grammar, history, buffer),
    };
    code_of(answer.map_err(u8::from))
}

// Why there is no room for the answers: a refused file, else the short buffer.
fn no_room(grammar: &[u8], history: &[u8]) -> Refusal
    ensures { number result ≡ no_room (files_in grammar.now history.now) }
{
    match service::open_files(grammar, history, 0, 0, &mut Contents::new()) {
        Ok(_) => Refusal::ShortBuffer,
        Err(refusal) => refusal,
    }
}

// Makes each call of the list, on the buffer as the one before left it, and writes its answer.
pub fn run_calls(
    grammar: &[u8],
    history: &[u8],
    calls: &[u8],
    answers: &mut [u8],
    buffer: &mut [u8],
) -> Result<(), Refusal>
    ensures { (outcome_said result, answers.new, buffer.new) ≡ calls_due grammar.now history.now calls.now answers.old buffer.old }
{
    if answers.len() < calls.len() {
        return Err(no_room(grammar, history));
    }
    for i in 0..calls.len() {
        answers[i] = call(grammar, history, calls[i], buffer);
    }
    Ok(())
}
