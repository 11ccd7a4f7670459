// The first reading: forward over the tokens, at each position the smallest rule that can stand there.
#![tactic(auto)]

ghost use Rattle.std.specs.Prelude.{◌≡◌, ◌<◌, ◌≤◌, length};
ghost use Rattle.listing_model.specs.believed.Listing.{first, over_entries};
ghost use Rattle.listing_model.specs.Calls.{call_on};
ghost use Rattle.levels.specs.Prepared.{prepared_grammar, prepared_rules, prepared_tokens};
ghost use Rattle.first_run.specs.Fill.{Derives, Filled};
ghost use Rattle.first_run.specs.First.{first_said};

use levels::{Nonterminals, Prepared};

// Where a derivation stands: the position, the nonterminal there, and the nonterminal behind each pending close.
#[derive(Clone, Copy)]
pub struct Configuration {
    pub position: usize,
    pub nonterminal: u16,
    pub behind: Nonterminals,
}

// Writes the first run from a configuration on, which is gone through in place: handed on by value it would be copied.
pub fn fill_in_place(input: &Prepared, from: &mut Configuration, out: &mut [u8])
    requires position_in_bounds { (from.old.position ≤ length input.now.tokens.now) × (length from.old.behind ≡ 1025) × (length input.now.tokens.now < length out.old) }
    requires derives { Derives input.now.grammar.head.well (prepared_rules input.now) (prepared_tokens input.now) from.old }
    ensures { Filled input.now.grammar.head.well (prepared_rules input.now) (prepared_tokens input.now) from.old out.old out.new }
{
    let n = input.tokens.len();
    let mut nonterminal = from.nonterminal;
    for p in from.position..n {
        let context = levels::context_at(input, p);
        let r = moves::smallest(&input.grammar, nonterminal, context);
        let rule = tables::six_in(input.grammar.table, r);
        out[p] = r as u8;
        let j = levels::close_at(input.closes, p);
        nonterminal = moves::inner_of(rule, from.behind[p]);
        moves::store_later(&mut from.behind, j, rule);
    }
    let last = moves::empty_rule(&input.grammar, nonterminal);
    out[n] = last as u8;
}

// The same from a configuration that the caller keeps.
pub fn fill(input: &Prepared, from: Configuration, out: &mut [u8])
    requires position_in_bounds { (from.position ≤ length input.now.tokens.now) × (length from.behind ≡ 1025) × (length input.now.tokens.now < length out.old) }
    requires derives { Derives input.now.grammar.head.well (prepared_rules input.now) (prepared_tokens input.now) from }
    ensures { Filled input.now.grammar.head.well (prepared_rules input.now) (prepared_tokens input.now) from out.old out.new }
{
    let mut going = from;
    fill_in_place(input, &mut going, out);
}

// What first reading and next reading answer: a reading was written, there is none, or there is no further one.
#[derive(Clone, Copy, PartialEq, Eq)]
pub enum Answer {
    Written,
    NoReading,
    NoFurther,
}

// Writes the first reading, if there is one.
pub fn first(input: &Prepared, out: &mut [u8]) -> Answer
    requires tokens_in_bounds { length input.now.tokens.now < length out.old }
    ensures { (first_said result, out.new) ≡ call_on (over_entries (prepared_grammar input.now) (prepared_tokens input.now)) first out.old }
{
    if !levels::derives_all(input) {
        return Answer::NoReading;
    }
    let from = Configuration {
        position: 0,
        nonterminal: input.grammar.head.start,
        behind: [0u16; 1025],
    };
    fill(input, from, out);
    Answer::Written
}
