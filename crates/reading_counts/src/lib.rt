// The services reading count, reading count at a position, and reading k, over the two files as bytes.
#![tactic(auto)]

ghost use Rattle.std.specs.Prelude.{◌≡◌, length};
ghost use Rattle.service.specs.believed.Given.{outcome_said};
ghost use Rattle.reading_counts.specs.believed.Numbered.{readings_said, readings_due, readings_at_due, reading_due};

use capped::Count;
use count_rows::Alone;
use refusal::Refusal;
use service::Contents;

// How many readings there are: exactly up to 2^64 - 1, else that there are more.
pub fn reading_count(grammar: &[u8], history: &[u8]) -> Result<Count, Refusal>
    ensures { readings_said result ≡ readings_due grammar.now history.now }
{
    let mut contents = Contents::new();
    let opened = service::open_files(grammar, history, 0, 0, &mut contents)?;
    Ok(count_rows::count(&opened.prepared(&mut [0; 1025], &mut [0; 1025]), None))
}

// How many readings have the rule at the position.
pub fn reading_count_at(
    grammar: &[u8],
    history: &[u8],
    position: usize,
    rule: usize,
) -> Result<Count, Refusal>
    ensures { readings_said result ≡ readings_at_due grammar.now history.now position rule }
{
    let mut contents = Contents::new();
    let opened = service::open_files(grammar, history, 0, 0, &mut contents)?;
    if opened.tokens.len() < position {
        return Err(Refusal::NoSuchReading);
    }
    let alone = Alone { position, rule };
    Ok(count_rows::count(
        &opened.prepared(&mut [0; 1025], &mut [0; 1025]),
        Some(alone),
    ))
}

// Writes reading k, counted from 1: n + 1 rule numbers for a history of n tokens.
pub fn reading_at(grammar: &[u8], history: &[u8], k: u64, reading: &mut [u8]) -> Result<(), Refusal>
    ensures { (outcome_said result, reading.new) ≡ reading_due grammar.now history.now k reading.old }
{
    let mut contents = Contents::new();
    let opened = service::open_files(grammar, history, 1, reading.len(), &mut contents)?;
    let written = kth_run::kth(&opened.prepared(&mut [0; 1025], &mut [0; 1025]), k, reading);
    written.map_err(|_| Refusal::NoSuchReading)
}
