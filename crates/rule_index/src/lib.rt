// The index of a table: the rules that can stand at a token, in rising order, and the empty rules of each nonterminal.
// It stands beside the table's rules, so that it goes wherever they go.
#![tactic(auto)]

ghost use Rattle.std.specs.Prelude.{◌≡◌, ◌<◌, ◌≤◌};
ghost use Rattle.vpg.specs.believed.Grammar.{left};
ghost use Rattle.tables.specs.Table.{Sized, rule_in};
ghost use Rattle.tables.specs.Ready.{Below, Ready};
ghost use Rattle.rule_index.specs.Classes.{spread, class_at, class_by, class_of};
ghost use Rattle.rule_index.specs.Goals.{goal, inside_goal, after_goal};
ghost use Rattle.rule_index.specs.Index.{first_in, next_in, end_in, Goals, Indexed};
ghost use Rattle.rule_index.specs.Building.{SameRules, IndexedFrom, EndsBelow, linked, with_end, with_goals};

mod chain;
mod grammar;

pub use chain::Chain;
pub use grammar::IndexedGrammar;
use tables::{Head, Table};
use vpg::{Rule, Token};

// A number below 64 that goes by all digits of a name: names of 16 bits that agree in their lowest six don't all meet in one class.
fn spread_of(name: u16) -> usize
    ensures { (result ≡ spread name) × (result < 64) }
{
    let n = name as usize;
    (n + n / 64 + n / 4096) % 64
}

// The class of a token.
pub fn class_at(token: Token) -> usize
    ensures { result ≡ class_at token }
{
    match token {
        Token::Mark(c) => 4 * spread_of(c.0),
        Token::Open(a) => 4 * spread_of(a.0) + 1,
        Token::Close(b) => 4 * spread_of(b.0) + 3,
    }
}

// The class of the token of a kind and a name, without the token put together first.
pub fn class_by(kind: u32, name: u16) -> usize
    ensures { result ≡ class_by kind name }
{
    if 2 <= kind {
        return 4 * spread_of(name) + 3;
    }
    4 * spread_of(name) + kind as usize
}

// The class of a rule. The empty rules of a nonterminal are one, so that a walk from one of them meets no rule of another nonterminal.
pub fn class_of(rule: Rule) -> usize
    ensures { result ≡ class_of rule }
{
    match rule {
        Rule::Empty(nonterminal) => 4 * nonterminal as usize + 2,
        Rule::Next(_, i, _) => class_at(i),
        Rule::Step(_, a, _, _, _) => 4 * spread_of(a.0) + 1,
    }
}

// The empty rule of a nonterminal; the number of rules where there is none.
fn end_of(table: &Table, nonterminal: usize) -> usize
    requires { nonterminal < 32 }
    ensures { result ≡ end_in table.now nonterminal }
{
    table.first[4 * nonterminal + 2] as usize
}

// Makes the index of no rules: whatever is looked for, there is none.
fn clear(table: &mut Table, rules: usize)
    requires { Sized table.old × (rules ≤ 128) }
    ensures { SameRules table.old table.new × IndexedFrom table.new rules rules }
{
    let none = rules as u16;
    table.first = [none; 256];
    table.next = [none; 128];
}

// Puts rule r before the rules of its class that are in the chain.
fn link(table: &mut Table, class: usize, r: usize)
    requires { (class < 256) × (r < 128) }
    ensures { table.new ≡ linked table.old class r }
{
    table.next[r] = table.first[class];
    table.first[class] = r as u16;
}

// Adds rule r to the index of the rules behind it.
fn add_rule(table: &mut Table, r: usize)
    requires { (r < 128) × (left (rule_in table.old r) < 32) }
    ensures { table.new ≡ linked table.old (class_of (rule_in table.old r)) r }
{
    let rule = tables::rule_of(table, r);
    link(table, class_of(rule), r);
}

// Adds all rules, from the last to the first, so that each chain rises.
fn add_rules(table: &mut Table, head: Head)
    requires { Sized table.old × Ready table.old head × IndexedFrom table.old head.rules head.rules }
    ensures { SameRules table.old table.new × IndexedFrom table.new head.rules 0 }
{
    for r in (0..head.rules).rev() {
        add_rule(table, r);
    }
}

// The digit of a nonterminal that has to derive the rest of its level, or all that is left.
fn goal_of(low: bool, nonterminal: u16) -> u16
    requires { nonterminal < 32 }
    ensures { result ≡ goal low nonterminal }
{
    if low {
        return nonterminal;
    }
    32 + nonterminal
}

fn inside_goal(rule: Rule, well: u16) -> u16
    requires { Below 32 rule }
    ensures { result ≡ inside_goal well rule }
{
    match rule {
        Rule::Empty(_) => 0,
        Rule::Next(l, _, l1) => goal_of(l < well, l1),
        Rule::Step(_, _, l1, _, _) => l1,
    }
}

fn after_goal(rule: Rule, well: u16) -> u16
    requires { Below 32 rule }
    ensures { result ≡ after_goal well rule }
{
    match rule {
        Rule::Empty(_) => 0,
        Rule::Next(_, _, _) => 0,
        Rule::Step(l, _, _, _, l2) => goal_of(l < well, l2),
    }
}

// Writes down the digits that rule r asks for.
fn put_goals(table: &mut Table, r: usize, well: u16)
    requires { (r < 128) × Below 32 (rule_in table.old r) }
    ensures { table.new ≡ with_goals table.old r (inside_goal well (rule_in table.old r)) (after_goal well (rule_in table.old r)) }
{
    let rule = tables::rule_of(table, r);
    table.inside[r] = inside_goal(rule, well);
    table.after[r] = after_goal(rule, well);
}

// Those of all rules.
fn add_goals(table: &mut Table, head: Head)
    requires { Sized table.old × Ready table.old head × IndexedFrom table.old head.rules 0 }
    ensures { SameRules table.old table.new × IndexedFrom table.new head.rules 0 × Goals table.new head head.rules }
{
    for r in 0..head.rules {
        put_goals(table, r, head.well);
    }
}

// The word, with the nonterminal where that has an empty rule.
fn with_end(table: &Table, rules: usize, word: u32, nonterminal: usize) -> u32
    requires { nonterminal < 32 }
    ensures { result ≡ with_end table.now rules word nonterminal }
{
    if end_of(table, nonterminal) < rules {
        return bits::with(word, nonterminal);
    }
    word
}

// The first n nonterminals that have an empty rule, looked up one by one.
fn ends_of(table: &Table, rules: usize, n: usize) -> u32
    requires { n ≤ 32 }
    ensures { EndsBelow table.now rules n result }
{
    let mut word: u32 = 0;
    for nonterminal in 0..n {
        word = with_end(table, rules, word, nonterminal);
    }
    word
}

// Builds the index beside the rules of a table.
pub fn index_rules(table: &mut Table, head: Head)
    requires { Sized table.old × Ready table.old head }
    ensures { (table.new.rules ≡ table.old.rules) × Indexed table.new head }
{
    clear(table, head.rules);
    add_rules(table, head);
    add_goals(table, head);
    let all = ends_of(table, head.rules, 32);
    let low = ends_of(table, head.rules, head.well as usize);
    table.ends = all;
    table.low_ends = low;
}
