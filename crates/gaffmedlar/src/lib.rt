// The services for C and for languages that call C. Each answers one number, or a struct with the number and the counts or the length: 0
// where all went well, 100 for "none", 101 for "no further", 102 for "over", else document 01's number of the refusal. A part of a file is a
// struct with its place alone, and another function says the number.
#![tactic(auto)]

ghost use Rattle.std.specs.Prelude.{◌≡◌, length};
ghost use Rattle.listing_model.specs.believed.Listing.{first, next};
ghost use Rattle.listing_model.specs.Calls.{call_on};
ghost use Rattle.grammar_file.specs.believed.GrammarFile.{grammar_of};
ghost use Rattle.history_file.specs.believed.HistoryFile.{history_of};
ghost use Rattle.files.specs.believed.Checks.{grammar_due, history_due};
ghost use Rattle.readings.specs.believed.Answers.{subject};
ghost use Rattle.calls.specs.believed.CallList.{coded, calls_due};
ghost use Rattle.sets.specs.believed.Sets.{sets_due, count_due};
ghost use Rattle.reading_counts.specs.believed.Numbered.{readings_due, readings_at_due, reading_due};
ghost use Rattle.stop_marks.specs.believed.StopMarks.{marks_due};
ghost use Rattle.step_bytes.specs.believed.StepBytes.{step_of, number_in};
ghost use Rattle.writers.specs.believed.Writers.{grammar_written, history_written};
ghost use Rattle.replies.specs.believed.Wire.{grammar_wire, history_wire, count_wire, sets_wire, readings_wire, outcome_wire, calls_wire, part_wire, step_code, write_wire};
ghost use Rattle.gaffmedlar.specs.believed.Version.{version};

use replies::{CountReply, GrammarReply, HistoryReply, PartReply, ReadingsReply, WriteReply};

// 10,000 times the first part of the version, 100 times the second, and the third.
const VERSION: u32 = 300;

// The version of the library, for whoever was compiled or written for one.
#[unsafe(no_mangle)]
pub extern "C" fn gaffmedlar_version() -> u32
    ensures { result ≡ version }
{
    VERSION
}

#[unsafe(no_mangle)]
#[tactic(auto, using(replies::proofs::Told::grammar_told_said))]
pub extern "C" fn gaffmedlar_grammar_check(grammar: &[u8]) -> GrammarReply
    ensures { result ≡ grammar_wire (grammar_due (grammar_of grammar.now)) }
{
    replies::grammar_reply(files::grammar_check(grammar).map_err(u8::from))
}

#[unsafe(no_mangle)]
#[tactic(auto, using(replies::proofs::Told::history_told_said))]
pub extern "C" fn gaffmedlar_history_check(history: &[u8]) -> HistoryReply
    ensures { result ≡ history_wire (history_due (history_of history.now)) }
{
    replies::history_reply(files::history_check(history).map_err(u8::from))
}

// Writes the first reading.
#[unsafe(no_mangle)]
#[tactic(auto, using(calls::proofs::Told::told_said))]
pub extern "C" fn gaffmedlar_first_reading(grammar: &[u8], history: &[u8], reading: &mut [u8]) -> u8
    ensures { (result, reading.new) ≡ coded (call_on (subject grammar.now history.now (length reading.old)) first reading.old) }
{
    calls::code_of(readings::first_reading(grammar, history, reading).map_err(u8::from))
}

// Overwrites the reading in the buffer by the next one.
#[unsafe(no_mangle)]
#[tactic(auto, using(calls::proofs::Told::told_said))]
pub extern "C" fn gaffmedlar_next_reading(grammar: &[u8], history: &[u8], reading: &mut [u8]) -> u8
    ensures { (result, reading.new) ≡ coded (call_on (subject grammar.now history.now (length reading.old)) next reading.old) }
{
    calls::code_of(readings::next_reading(grammar, history, reading).map_err(u8::from))
}

// Makes a list of the two calls above on one buffer: 0 is first reading, any other number next reading. Where there is no room for the
// answers, a refused file's number, else 15.
#[unsafe(no_mangle)]
#[tactic(auto, using(replies::proofs::Told::told_said))]
pub extern "C" fn gaffmedlar_run_calls(
    grammar: &[u8],
    history: &[u8],
    calls: &[u8],
    answers: &mut [u8],
    buffer: &mut [u8],
) -> u8
    ensures { (result, answers.new, buffer.new) ≡ calls_wire (calls_due grammar.now history.now calls.now answers.old buffer.old) }
{
    let outcome = calls::run_calls(grammar, history, calls, answers, buffer);
    replies::outcome_code(outcome.map_err(u8::from))
}

// Writes four words for each position, the set of rules that stand there in some reading, and answers how many positions are choices.
#[unsafe(no_mangle)]
#[tactic(auto, using(replies::proofs::Told::told_said))]
pub extern "C" fn gaffmedlar_sets(grammar: &[u8], history: &[u8], words: &mut [u32]) -> CountReply
    ensures { (result, words.new) ≡ sets_wire (sets_due grammar.now history.now words.old) }
{
    replies::count_reply(sets::sets(grammar, history, words).map_err(u8::from))
}

// How many positions are choices: two rules of their set are for one nonterminal.
#[unsafe(no_mangle)]
#[tactic(auto, using(replies::proofs::Told::told_said))]
pub extern "C" fn gaffmedlar_choice_count(grammar: &[u8], history: &[u8]) -> CountReply
    ensures { result ≡ count_wire (count_due grammar.now history.now) }
{
    replies::count_reply(sets::choice_count(grammar, history).map_err(u8::from))
}

// How many readings there are.
#[unsafe(no_mangle)]
#[tactic(auto, using(replies::proofs::Told::readings_told_said))]
pub extern "C" fn gaffmedlar_reading_count(grammar: &[u8], history: &[u8]) -> ReadingsReply
    ensures { result ≡ readings_wire (readings_due grammar.now history.now) }
{
    replies::readings_reply(reading_counts::reading_count(grammar, history).map_err(u8::from))
}

// How many readings have the rule at the position.
#[unsafe(no_mangle)]
#[tactic(auto, using(replies::proofs::Told::readings_told_said))]
pub extern "C" fn gaffmedlar_reading_count_at(
    grammar: &[u8],
    history: &[u8],
    position: usize,
    rule: usize,
) -> ReadingsReply
    ensures { result ≡ readings_wire (readings_at_due grammar.now history.now position rule) }
{
    let count = reading_counts::reading_count_at(grammar, history, position, rule);
    replies::readings_reply(count.map_err(u8::from))
}

// Writes reading k, counted from 1.
#[unsafe(no_mangle)]
#[tactic(auto, using(replies::proofs::Told::told_said))]
pub extern "C" fn gaffmedlar_reading_at(
    grammar: &[u8],
    history: &[u8],
    k: u64,
    reading: &mut [u8],
) -> u8
    ensures { (result, reading.new) ≡ outcome_wire (reading_due grammar.now history.now k reading.old) }
{
    let outcome = reading_counts::reading_at(grammar, history, k, reading);
    replies::outcome_code(outcome.map_err(u8::from))
}

// Writes n + 1 bytes: byte i is 1 where the first i tokens alone have a reading, else 0.
#[unsafe(no_mangle)]
#[tactic(auto, using(replies::proofs::Told::told_said))]
pub extern "C" fn gaffmedlar_stop_marks(grammar: &[u8], history: &[u8], marks: &mut [u8]) -> u8
    ensures { (result, marks.new) ≡ outcome_wire (marks_due grammar.now history.now marks.old) }
{
    replies::outcome_code(stop_marks::stop_marks(grammar, history, marks).map_err(u8::from))
}

// The bytes of the step whose open stands at the position: where in the history they start, and how many there are.
#[unsafe(no_mangle)]
pub extern "C" fn gaffmedlar_step_bytes(history: &[u8], position: usize) -> PartReply
    ensures { result ≡ part_wire (step_of history.now position) }
{
    replies::part_reply(step_bytes::locate(history, position).map_err(u8::from))
}

// Why there is no step at the position; 0 where there is one.
#[unsafe(no_mangle)]
#[tactic(auto, using(replies::proofs::Told::number_told_said))]
pub extern "C" fn gaffmedlar_step_refusal(history: &[u8], position: usize) -> u8
    ensures { result ≡ step_code (number_in (step_of history.now position)) }
{
    replies::step_code(step_bytes::step_check(history, position).map_err(u8::from))
}

// Writes the grammar file of these numbers, one element each.
#[unsafe(no_mangle)]
#[tactic(auto, using(replies::proofs::Told::told_said))]
pub extern "C" fn gaffmedlar_write_grammar(numbers: &[u32], file: &mut [u8]) -> WriteReply
    ensures { (result, file.new) ≡ write_wire (grammar_written numbers.now file.old) }
{
    replies::write_reply(writers::write_grammar(numbers, file).map_err(u8::from))
}

// Writes the history file of these numbers, one element each.
#[unsafe(no_mangle)]
#[tactic(auto, using(replies::proofs::Told::told_said))]
pub extern "C" fn gaffmedlar_write_history(numbers: &[u32], file: &mut [u8]) -> WriteReply
    ensures { (result, file.new) ≡ write_wire (history_written numbers.now file.old) }
{
    replies::write_reply(writers::write_history(numbers, file).map_err(u8::from))
}
