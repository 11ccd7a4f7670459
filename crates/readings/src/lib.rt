// The services first reading and next reading, over the two files as bytes.
#![tactic(auto)]

ghost use Rattle.std.specs.Prelude.{◌≡◌, length};
ghost use Rattle.listing_model.specs.believed.Listing.{first, next};
ghost use Rattle.listing_model.specs.Calls.{call_on};
ghost use Rattle.readings.specs.believed.Answers.{said, subject};

use first_run::Answer;
use refusal::Refusal;
use service::Contents;

// Writes the first reading: n + 1 rule numbers for a history of n tokens.
pub fn first_reading(grammar: &[u8], history: &[u8], reading: &mut [u8]) -> Result<Answer, Refusal>
    ensures { (said result, reading.new) ≡ call_on (subject grammar.now history.now (length reading.old)) first reading.old }
{
    let mut contents = Contents::new();
    let files = service::open_files(grammar, history, 1, reading.len(), &mut contents)?;
    Ok(first_run::first(&files.prepared(&mut [0; 1025], &mut [0; 1025]), reading))
}

// Overwrites the reading in the buffer by the next one.
pub fn next_reading(grammar: &[u8], history: &[u8], reading: &mut [u8]) -> Result<Answer, Refusal>
    ensures { (said result, reading.new) ≡ call_on (subject grammar.now history.now (length reading.old)) next reading.old }
{
    let mut contents = Contents::new();
    let opened = service::open_files(grammar, history, 1, reading.len(), &mut contents)?;
    let answer = next_run::next(&opened.prepared(&mut [0; 1025], &mut [0; 1025]), reading);
    answer.map_err(|_| Refusal::NotAReading)
}
