// The set of rules at a position: in words, the sum by which two rules for one nonterminal are told, and the nonterminals that follow.
#![tactic(auto)]

ghost use Rattle.std.specs.Prelude.{◌≡◌, ◌*◌, ◌<◌, ◌≤◌, length, replicate, cond, true};
ghost use Rattle.bits.specs.Bit.{bit};
ghost use Rattle.vpg.specs.believed.Grammar.{left};
ghost use Rattle.tables.specs.Table.{rule_in};
ghost use Rattle.tables.specs.Ready.{Below};
ghost use Rattle.contexts.specs.declared.Context.{Context};
ghost use Rattle.contexts.specs.declared.Kind.{Kind};
ghost use Rattle.contexts.specs.Context.{code, AtKind};
ghost use Rattle.rule_set.specs.Words.{add_in};
ghost use Rattle.rule_set.specs.Ends.{end_ways, Among, Only};
ghost use Rattle.rule_set.specs.RuleSet.{keeps_at, next_with, behind_with, sum_with, ways_with, ways_in, words_in};

use contexts::{Context, Kind};
use rule_index::IndexedGrammar;
use vpg::Rule;

// What the set at a position says: the sum of 2^L over its rules, L being the nonterminal that a rule is for, the nonterminals at the next
// position and those behind the close. As a word the nonterminals of the rules are the sum of 2^L over each of them once, so the two are
// equal exactly where no two rules are for one nonterminal. A rule costs one addition and no look at the others.
#[derive(Clone, Copy, Default)]
pub struct Ways {
    pub sum: u64,
    pub next: u32,
    pub behind: u32,
}

// Whether the nonterminal of rule r can stand here.
fn left_here(here: u32, grammar: &IndexedGrammar, r: usize) -> bool
    requires { (r < 128) × Below 32 (rule_in grammar.now.table.now r) }
    ensures { result ≡ bit here (left (rule_in grammar.now.table.now r)) }
{
    bits::has(here as u64, tables::left_in(grammar.table, r) as usize)
}

// The nonterminals at the next position, with the rule's.
fn next_with(set: u32, rule: Rule) -> u32
    requires { Below 32 rule }
    ensures { result ≡ next_with set rule }
{
    match rule {
        Rule::Empty(_) => set,
        Rule::Next(_, _, l1) | Rule::Step(_, _, l1, _, _) => bits::with(set, l1 as usize),
    }
}

// The nonterminals behind the close, with the rule's.
fn behind_with(set: u32, rule: Rule) -> u32
    requires { Below 32 rule }
    ensures { result ≡ behind_with set rule }
{
    match rule {
        Rule::Empty(_) | Rule::Next(_, _, _) => set,
        Rule::Step(_, _, _, _, l2) => bits::with(set, l2 as usize),
    }
}

// Adds rule r to the set of rules.
fn add(words: &mut [u32], r: usize)
    requires { (length words.old ≡ 4) × (r < 128) }
    ensures { words.new ≡ add_in 32 words.old r }
{
    words[r / 32] = bits::with(words[r / 32], r % 32);
}

// The sum with one rule more, which is for l. 128 rules add at most 2^39.
fn sum_with(sum: u64, l: usize) -> u64
    requires { (l < 32) × (sum ≤ 549755813888) }
    ensures { result ≡ sum_with sum l }
{
    let one = bits::with(0, l);
    sum + one as u64
}

// The ways on, with those of rule r of the set.
fn ways_with(ways: Ways, grammar: &IndexedGrammar, r: usize) -> Ways
    requires r_bound { (r < 128) × Below 32 (rule_in grammar.now.table.now r) }
    requires sum_bound { ways.sum ≤ r * 4294967296 }
    ensures { result ≡ ways_with ways (rule_in grammar.now.table.now r) }
{
    let l = tables::left_in(grammar.table, r) as usize;
    let rule = tables::rule_of(grammar.table, r);
    let sum = sum_with(ways.sum, l);
    let next = next_with(ways.next, rule);
    let behind = behind_with(ways.behind, rule);
    Ways { sum, next, behind }
}

// The ways on, with those of rule r where it is in the set, and the set with the rule if it is written.
fn turn<const WRITE: bool>(
    ways: Ways,
    grammar: &IndexedGrammar,
    r: usize,
    kept: bool,
    words: &mut [u32],
) -> Ways
    requires r_bound { (r < 128) × Below 32 (rule_in grammar.now.table.now r) }
    requires sum_bound { ways.sum ≤ r * 4294967296 }
    requires words_len { WRITE ≡ true → length words.old ≡ 4 }
    ensures { (result ≡ cond kept (ways_with ways (rule_in grammar.now.table.now r)) ways) × (WRITE ≡ true → words.new ≡ cond kept (add_in 32 words.old r) words.old) }
{
    if kept {
        if WRITE {
            add(words, r);
        }
        ways_with(ways, grammar, r)
    } else {
        ways
    }
}

// The ways on at a mark or an open where the nonterminals `here` can stand: only the rules of the token's class are looked at, and of these most
// can stand at the token, so that is asked last.
fn class_walk<const WRITE: bool>(
    grammar: &IndexedGrammar,
    here: u32,
    context: Context,
    words: &mut [u32],
) -> Ways
    requires kind { code context.kind < 2 }
    requires none_yet { WRITE ≡ true → words.old ≡ replicate 4 0 }
    ensures { (result ≡ ways_in grammar.now.head.well grammar.now.table.now here context grammar.now.head.rules) × (WRITE ≡ true → words.new ≡ words_in grammar.now.head.well grammar.now.table.now here context grammar.now.head.rules) }
{
    let mut ways = Ways::default();
    for r in contexts::rules_here(grammar, context) {
        let kept = left_here(here, grammar, r) && contexts::takes(grammar, r, context);
        ways = turn::<WRITE>(ways, grammar, r, kept, words);
    }
    ways
}

// The set of rules where only empty rules can stand: those of the nonterminals `here` that the word `ends` has. A nonterminal has one at most,
// which the index knows, so the nonterminals are taken one by one, the lowest first.
fn ends_words(grammar: &IndexedGrammar, here: u32, ends: u32, words: &mut [u32])
    requires among { Among grammar.now.table.now ends }
    requires none_yet { words.old ≡ replicate 4 0 }
    ensures { (p : Context) → Only grammar.now.table.now grammar.now.head p ends → words.new ≡ words_in grammar.now.head.well grammar.now.table.now here p grammar.now.head.rules }
{
    let mut due = here & ends;
    while due != 0 {
        add(words, grammar.end(u32::trailing_zeros(due) as usize));
        due &= due - 1;
    }
}

// The ways on there: these rules lead nowhere, and no two are for one nonterminal.
fn ends_walk<const WRITE: bool>(
    grammar: &IndexedGrammar,
    here: u32,
    ends: u32,
    words: &mut [u32],
) -> Ways
    requires among { Among grammar.now.table.now ends }
    requires none_yet { WRITE ≡ true → words.old ≡ replicate 4 0 }
    ensures { (p : Context) → Only grammar.now.table.now grammar.now.head p ends → (result ≡ ways_in grammar.now.head.well grammar.now.table.now here p grammar.now.head.rules) × (WRITE ≡ true → words.new ≡ words_in grammar.now.head.well grammar.now.table.now here p grammar.now.head.rules) }
{
    if WRITE {
        ends_words(grammar, here, ends, words);
    }
    let both = here & ends;
    Ways {
        sum: both as u64,
        next: 0,
        behind: 0,
    }
}

// The ways on at a close that a rule takes alone: all rules are looked at.
fn all_walk<const WRITE: bool>(
    grammar: &IndexedGrammar,
    here: u32,
    context: Context,
    words: &mut [u32],
) -> Ways
    requires none_yet { WRITE ≡ true → words.old ≡ replicate 4 0 }
    ensures { (result ≡ ways_in grammar.now.head.well grammar.now.table.now here context grammar.now.head.rules) × (WRITE ≡ true → words.new ≡ words_in grammar.now.head.well grammar.now.table.now here context grammar.now.head.rules) }
{
    let mut ways = Ways::default();
    for r in 0..grammar.head.rules {
        let kept = left_here(here, grammar, r) && contexts::applies(grammar, r, context);
        ways = turn::<WRITE>(ways, grammar, r, kept, words);
    }
    ways
}

// The ways on at a close.
fn close_walk<const WRITE: bool>(
    grammar: &IndexedGrammar,
    here: u32,
    context: Context,
    words: &mut [u32],
) -> Ways
    requires kind { context.kind ≡ Kind.Close }
    requires none_yet { WRITE ≡ true → words.old ≡ replicate 4 0 }
    ensures { (result ≡ ways_in grammar.now.head.well grammar.now.table.now here context grammar.now.head.rules) × (WRITE ≡ true → words.new ≡ words_in grammar.now.head.well grammar.now.table.now here context grammar.now.head.rules) }
{
    if contexts::first_here(grammar, context) < grammar.head.rules {
        return all_walk::<WRITE>(grammar, here, context, words);
    }
    ends_walk::<WRITE>(grammar, here, grammar.low_ends(), words)
}

// The ways on at a position, and if WRITE, in four words, the set of rules: rule 32k + b as digit b of word k.
fn walk<const WRITE: bool>(
    grammar: &IndexedGrammar,
    here: u32,
    context: Context,
    words: &mut [u32],
) -> Ways
    requires none_yet { WRITE ≡ true → words.old ≡ replicate 4 0 }
    ensures { (result ≡ ways_in grammar.now.head.well grammar.now.table.now here context grammar.now.head.rules) × (WRITE ≡ true → words.new ≡ words_in grammar.now.head.well grammar.now.table.now here context grammar.now.head.rules) }
{
    match context.kind {
        Kind::Mark | Kind::Open => class_walk::<WRITE>(grammar, here, context, words),
        Kind::Close => close_walk::<WRITE>(grammar, here, context, words),
        Kind::End => ends_walk::<WRITE>(grammar, here, grammar.ends(), words),
    }
}

// The set of rules at a position where the nonterminals `here` can stand: it is written, rule 32k + b as digit b of word k.
pub fn set_at(grammar: &IndexedGrammar, here: u32, context: Context, words: &mut [u32]) -> Ways
    requires words_len { length words.old ≡ 4 }
    ensures { (result ≡ ways_in grammar.now.head.well grammar.now.table.now here context grammar.now.head.rules) × (words.new ≡ words_in grammar.now.head.well grammar.now.table.now here context grammar.now.head.rules) }
{
    words.fill(0);
    walk::<true>(grammar, here, context, words)
}

// The ways on alone, where nobody asks for the set.
pub fn ways_at(grammar: &IndexedGrammar, here: u32, context: Context) -> Ways
    ensures { result ≡ ways_in grammar.now.head.well grammar.now.table.now here context grammar.now.head.rules }
{
    walk::<false>(grammar, here, context, &mut [])
}
