// Rules as a table, six numbers to a rule, in file order: what the layers above work on.
#![tactic(auto)]

ghost use Rattle.std.specs.Prelude.{◌≡◌, ◌&&◌, ◌≤◌, ◌<◌};
ghost use Rattle.vpg.specs.declared.Rule.{Rule as RuleValue};
ghost use Rattle.vpg.specs.believed.Grammar.{left};
ghost use Rattle.vpg.specs.Forms.{form_of, name_of};
ghost use Rattle.tables.specs.Table.{token_by, six_of, rule_from, six_in, rule_in, rules_in, put_six, no_table, same_rule, earlier};
ghost use Rattle.tables.specs.Keys.{key_in, has_key, with_key, Keyed};

use vpg::{CloseName, MarkName, OpenName, Rule, Token};

// The rules of a grammar, at most 128, six numbers to each; beside them, room for the index that crates/rule_index keeps: the first rule of each of
// 256 classes and the next one in the class of each rule, the nonterminals that have an empty rule and the well-matched ones among them, and the
// digits that a rule asks for behind its token and behind the close of its step.
#[derive(Clone, Copy)]
pub struct Table {
    pub rules: [Six; 128],
    pub first: [u16; 256],
    pub next: [u16; 128],
    pub ends: u32,
    pub low_ends: u32,
    pub inside: [u16; 128],
    pub after: [u16; 128],
}

impl Table {
    // All zeros.
    pub fn new() -> Table
        ensures { result ≡ no_table }
    {
        Table {
            rules: [Six(0, 0, 0, 0, 0, 0); 128],
            first: [0; 256],
            next: [0; 128],
            ends: 0,
            low_ends: 0,
            inside: [0; 128],
            after: [0; 128],
        }
    }
}

// What a grammar file says before its rules: how many nonterminals there are, how many of them, the first ones, are well matched, the start, and
// how many rules.
#[derive(Clone, Copy)]
pub struct Head {
    pub nonterminals: u16,
    pub well: u16,
    pub start: u16,
    pub rules: usize,
}

// A rule as six numbers: the form, the fields in file order, and zeros.
#[derive(Clone, Copy, PartialEq, Eq)]
pub struct Six(pub u16, pub u16, pub u16, pub u16, pub u16, pub u16);

// The form of a rule that takes the token alone: 1 for a mark; 3 for an open and 4 for a close, which no file has yet.
fn form_of(token: Token) -> u16
    ensures { result ≡ form_of token }
{
    match token {
        Token::Mark(_) => 1,
        Token::Open(_) => 3,
        Token::Close(_) => 4,
    }
}

pub fn name_of(token: Token) -> u16
    ensures { result ≡ name_of token }
{
    match token {
        Token::Mark(c) => c.0,
        Token::Open(a) => a.0,
        Token::Close(b) => b.0,
    }
}

pub fn six_of(rule: Rule) -> Six
    ensures { result ≡ six_of rule }
{
    match rule {
        Rule::Empty(l) => Six(0, l, 0, 0, 0, 0),
        Rule::Next(l, i, l1) => Six(form_of(i), l, name_of(i), l1, 0, 0),
        Rule::Step(l, a, l1, b, l2) => Six(2, l, a.0, l1, b.0, l2),
    }
}

// The token that a rule of the form takes alone.
fn token_by(form: u16, name: u16) -> Token
    ensures { result ≡ token_by form name }
{
    if form == 3 {
        return Token::Open(OpenName(name));
    }
    if form == 4 {
        return Token::Close(CloseName(name));
    }
    Token::Mark(MarkName(name))
}

fn rule_from(v: Six) -> Rule
    ensures { result ≡ rule_from v }
{
    if v.0 == 0 {
        return Rule::Empty(v.1);
    }
    if v.0 == 2 {
        return Rule::Step(v.1, OpenName(v.2), v.3, CloseName(v.4), v.5);
    }
    Rule::Next(v.1, token_by(v.0, v.2), v.3)
}

// The six numbers of rule k, for loops over the rules: most rules are passed over by a number or two.
pub fn six_in(table: &Table, k: usize) -> Six
    requires { k < 128 }
    ensures { result ≡ six_in table.now k }
{
    table.rules[k]
}

// The rule of number k.
pub fn rule_of(table: &Table, k: usize) -> Rule
    requires { k < 128 }
    ensures { result ≡ rule_in table.now k }
{
    rule_from(six_in(table, k))
}

// The nonterminal that the rule of number k is for: it is known before the rule is taken apart.
pub fn left_in(table: &Table, k: usize) -> u16
    requires { k < 128 }
    ensures { result ≡ left (rule_in table.now k) }
{
    table.rules[k].1
}

// Writes the rule of number k.
pub fn put(table: &mut Table, k: usize, v: Six)
    requires { k < 128 }
    ensures { table.new ≡ put_six table.old k v }
{
    table.rules[k] = v;
}

// Whether a rule with these six numbers is that of number j, equal in form and in all fields (refusal 8): most rules differ in their nonterminal
// already.
fn same_at(table: &Table, j: usize, six: Six) -> bool
    requires { j < 128 }
    ensures { (rule : RuleValue) → six ≡ six_of rule → result ≡ same_rule rule (rule_in table.now j) }
{
    left_in(table, j) == six.1 && six == six_of(rule_of(table, j))
}

// Whether the rule is one of the first n: it is held against each of them.
fn seen_among(table: &Table, n: usize, rule: Rule) -> bool
    requires { n ≤ 128 }
    ensures { result ≡ earlier rule (rules_in table.now n) }
{
    let six = six_of(rule);
    for j in (0..n).rev() {
        if same_at(table, j, six) {
            return true;
        }
    }
    false
}

// A number below 2,048 that equal rules share. The factors spread rules whose stages and names are dealt out in turn.
fn key_of(v: Six) -> usize
    ensures { result ≡ key_in v }
{
    let front = 525 * v.0 as u32 + 1326 * v.1 as u32 + 1409 * v.2 as u32;
    let sum = front + 513 * v.3 as u32 + 287 * v.4 as u32 + 1335 * v.5 as u32;
    (sum % 2048) as usize
}

// For each key a digit, which is 1 where a rule has the key; 32 of them to a word.
pub type Keys = [u32; 64];

// Whether the key of these six numbers is marked.
fn has_key(keys: &Keys, v: Six) -> bool
    ensures { result ≡ has_key keys.now (key_in v) }
{
    let k = key_of(v);
    bits::has(keys[k / 32] as u64, k % 32)
}

// Marks the key of these six numbers.
pub fn mark_key(keys: &mut Keys, v: Six)
    ensures { keys.new ≡ with_key keys.old (key_in v) }
{
    let k = key_of(v);
    keys[k / 32] = bits::with(keys[k / 32], k % 32);
}

// Whether the rule is one of the first n, whose keys are marked. Where its key isn't, it is none of them; most rules pass by that.
pub fn seen(table: &Table, n: usize, rule: Rule, keys: &Keys) -> bool
    requires { (n ≤ 128) × Keyed table.now n keys.now }
    ensures { result ≡ earlier rule (rules_in table.now n) }
{
    has_key(keys, six_of(rule)) && seen_among(table, n, rule)
}
