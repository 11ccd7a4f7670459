// The next reading: backward the last position at which a larger rule still leads to a reading, then forward the first run from there.
#![tactic(auto)]

ghost use Rattle.std.specs.Prelude.{◌≡◌, ◌<◌, ◌≤◌, length};
ghost use Rattle.listing_model.specs.believed.Listing.{next, over_entries};
ghost use Rattle.listing_model.specs.Calls.{call_on};
ghost use Rattle.levels.specs.Prepared.{prepared_grammar, prepared_rules, prepared_tokens};
ghost use Rattle.first_run.specs.Fill.{Derives};
ghost use Rattle.next_run.specs.Next.{EachFits, LargerRule, LastPosition, onward, Rewritten, next_said};

use first_run::{Answer, Configuration};
use levels::{Nonterminals, Prepared};

// The smallest larger rule that can stand at a position: it comes behind the one in the buffer in its class, since all rules of a nonterminal that
// can stand at one position are of one class.
fn larger_rule(input: &Prepared, at: &Nonterminals, reading: &[u8], p: usize) -> Option<usize>
    requires position_in_bounds { (p ≤ length input.now.tokens.now) × (length input.now.tokens.now < length reading.now) }
    requires each_fits { EachFits input.now.grammar.table.now input.now.grammar.head (prepared_tokens input.now) at.now reading.now }
    ensures { LargerRule input.now.grammar.table.now input.now.grammar.head (prepared_tokens input.now) at.now reading.now p result }
{
    let context = levels::context_at(input, p);
    let nonterminal = at[p];
    for r in input.grammar.chain_behind(reading[p] as usize) {
        if moves::fits(&input.grammar, r, nonterminal, context) {
            return Some(r);
        }
    }
    None
}

// The last position at which a larger rule still leads to a reading, and the smallest such rule there.
pub fn last_position(input: &Prepared, at: &Nonterminals, reading: &[u8]) -> Option<(usize, usize)>
    requires tokens_in_bounds { length input.now.tokens.now < length reading.now }
    requires each_fits { EachFits input.now.grammar.table.now input.now.grammar.head (prepared_tokens input.now) at.now reading.now }
    ensures { LastPosition input.now.grammar.table.now input.now.grammar.head (prepared_tokens input.now) at.now reading.now result }
{
    let n = input.tokens.len();
    for p in (0..n + 1).rev() {
        if let Some(r) = larger_rule(input, at, reading, p) {
            return Some((p, r));
        }
    }
    None
}

// Where a reading leaves another: where its derivation stands there, and the rule with which the other goes on.
#[derive(Clone, Copy)]
pub struct Branch {
    pub from: Configuration,
    pub rule: usize,
}

// Writes the rule of a branch at its position, and behind it the first run from there, to which the branch goes on in place.
fn rewrite(input: &Prepared, branch: &mut Branch, reading: &mut [u8])
    requires position_in_bounds { (branch.old.from.position ≤ length input.now.tokens.now) × (branch.old.rule < input.now.grammar.head.rules) × (length branch.old.from.behind ≡ 1025) × (length input.now.tokens.now < length reading.old) }
    requires derives { branch.old.from.position < length input.now.tokens.now → Derives input.now.grammar.head.well (prepared_rules input.now) (prepared_tokens input.now) (onward input.now.grammar.table.now input.now.closes.now branch.old) }
    ensures { Rewritten input.now.grammar.table.now input.now.grammar.head (prepared_tokens input.now) input.now.closes.now branch.old reading.old reading.new }
{
    let p = branch.from.position;
    reading[p] = branch.rule as u8;
    if p < input.tokens.len() {
        let rule = tables::six_in(input.grammar.table, branch.rule);
        let j = levels::close_at(input.closes, p);
        branch.from.position = p + 1;
        branch.from.nonterminal = moves::inner_of(rule, branch.from.behind[p]);
        moves::store_later(&mut branch.from.behind, j, rule);
        first_run::fill_in_place(input, &mut branch.from, reading);
    }
}

// The buffer holds no reading.
#[derive(Clone, Copy, Debug, PartialEq, Eq)]
pub struct NotAReading;

// Overwrites the reading in the buffer by the next one, if there is one.
pub fn next(input: &Prepared, reading: &mut [u8]) -> Result<Answer, NotAReading>
    requires tokens_in_bounds { length input.now.tokens.now < length reading.old }
    ensures { (next_said result, reading.new) ≡ call_on (over_entries (prepared_grammar input.now) (prepared_tokens input.now)) next reading.old }
{
    let read = replay::replay(input, reading);
    // By reference: the arrays are not copied.
    let Some(replayed) = &read else {
        return Err(NotAReading);
    };
    let Some((position, rule)) = last_position(input, &replayed.at, reading) else {
        return Ok(Answer::NoFurther);
    };
    let from = Configuration {
        position,
        nonterminal: replayed.at[position],
        behind: replayed.behind,
    };
    rewrite(input, &mut Branch { from, rule }, reading);
    Ok(Answer::Written)
}
