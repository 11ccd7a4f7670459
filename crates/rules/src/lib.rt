// Reads one rule of a grammar file: one pair of numbers to a function, each of which ends in a call of the next.
#![tactic(auto)]

ghost use Rattle.std.specs.Prelude.{◌≡◌, ◌≤◌};
ghost use Rattle.numbers.specs.believed.Number.{number_at};
ghost use Rattle.rules.specs.believed.Rule.{pair_at, step_at, body_at, rule_at};

use numbers::Read;
use refusal::Refusal;
use vpg::{CloseName, MarkName, OpenName, Rule, Token};

// Names are below this.
const NAMES: u32 = 65536;

// Forms are below this.
const FORMS: u32 = 3;

// Two numbers one after the other, and the place after them; or what is wrong.
type PairRead = Result<(u16, u16, usize), Refusal>;

// A number below the limit, then a nonterminal.
#[tactic(auto, unfolding(crate::specs::believed::Rule::pair_at))]
fn pair_at(s: &[u8], at: usize, limit: u32, refusal: Refusal, nonterminals: u16) -> PairRead
    requires { limit ≤ 65536 }
    ensures { result ≡ pair_at (number_at s.now) at limit refusal nonterminals }
{
    let (a, next) = numbers::field_at(s, at, limit, refusal)?;
    let (b, end) = numbers::field_at(s, next, nonterminals as u32, Refusal::Stage)?;
    Ok((a, b, end))
}

// The rest of a form 2 rule: b, then L2.
#[tactic(auto, unfolding(crate::specs::believed::Rule::step_at))]
fn step_at(s: &[u8], at: usize, nonterminals: u16, from: u16, name: u16, to: u16) -> Read<Rule>
    ensures { result ≡ step_at (number_at s.now) at nonterminals from name to }
{
    let (close, last, next) = pair_at(s, at, NAMES, Refusal::Name, nonterminals)?;
    Ok((
        Rule::Step(from, OpenName(name), to, CloseName(close), last),
        next,
    ))
}

// The rest of a form 1 or 2 rule: c or a, then L1, and what follows.
#[tactic(auto, unfolding(crate::specs::believed::Rule::body_at))]
fn body_at(s: &[u8], at: usize, nonterminals: u16, form: u16, from: u16) -> Read<Rule>
    ensures { result ≡ body_at (number_at s.now) at nonterminals form from }
{
    let (name, to, next) = pair_at(s, at, NAMES, Refusal::Name, nonterminals)?;
    if form == 1 {
        Ok((Rule::Next(from, Token::Mark(MarkName(name)), to), next))
    } else {
        step_at(s, next, nonterminals, from, name, to)
    }
}

#[tactic(auto, unfolding(crate::specs::believed::Rule::rule_at))]
pub fn rule_at(s: &[u8], at: usize, nonterminals: u16) -> Read<Rule>
    ensures { result ≡ rule_at (number_at s.now) at nonterminals }
{
    let (form, from, next) = pair_at(s, at, FORMS, Refusal::Form, nonterminals)?;
    if form == 0 {
        Ok((Rule::Empty(from), next))
    } else {
        body_at(s, next, nonterminals, form, from)
    }
}
