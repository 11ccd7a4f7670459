// Counts by position: backward over the tokens, how many derivations of the rest of its level each nonterminal has.
#![tactic(auto)]

ghost use Rattle.std.specs.Prelude.{◌≡◌, ◌&&◌, ◌<◌, ◌≤◌, ltb};
ghost use Rattle.capped.specs.Capped.{cap, value};
ghost use Rattle.vpg.specs.Runs.{entries};
ghost use Rattle.count_theory.specs.believed.CountAt.{tally};
ghost use Rattle.count_theory.specs.Allowed.{passes};
ghost use Rattle.tables.specs.Table.{rule_in};
ghost use Rattle.tables.specs.Ready.{Below};
ghost use Rattle.rule_index.specs.Index.{end_in};
ghost use Rattle.vpg.specs.believed.Grammar.{left};
ghost use Rattle.levels.specs.Prepared.{prepared_grammar, prepared_rules, prepared_tokens};
ghost use Rattle.contexts.specs.declared.Kind.{Kind};
ghost use Rattle.contexts.specs.Context.{code};
ghost use Rattle.count_rows.specs.Rows.{OversBehind, parts_behind, Added, AddedIf, Empty, EndsOnly, Filled, Clear, Complete, allowed_by};

mod rows;

use capped::Count;
use contexts::{Context, Kind};
use levels::Prepared;
pub use rows::{Overs, Rows};
use rule_index::IndexedGrammar;
use vpg::Rule;

// A position at which one rule alone is allowed. A position behind the last one asks for nothing.
#[derive(Clone, Copy)]
pub struct Alone {
    pub position: usize,
    pub rule: usize,
}

// Whether rule r may stand at position p. Any rule may where none is alone.
fn allowed(p: usize, r: usize, alone: Option<Alone>) -> bool
    requires { p < 1026 }
    ensures { result ≡ allowed_by alone p r }
{
    alone.is_none_or(|alone| p != alone.position || r == alone.rule)
}

// In how many ways a rule that can stand here is gone on with: any derivation of each part of its right side. The two positions stand for their
// context, which would be passed in memory: counts of 120 rules of one name took 1.17 times the time.
pub fn parts_of(rule: Rule, rows: &Rows, position: usize, closing: usize, overs: Overs) -> Count
    requires { Below 32 rule × (position < 1025) × (closing < 1025) × OversBehind rows.now position closing overs }
    ensures { value result ≡ parts_behind rows.now position closing rule }
{
    let inside = position + 1;
    let after = closing + 1;
    match rule {
        Rule::Empty(_) => Some(1),
        Rule::Next(_, _, l1) => rows.count_by(inside, l1 as usize, overs.inside),
        Rule::Step(_, _, l1, _, l2) => capped::product(
            rows.count_by(inside, l1 as usize, overs.inside),
            rows.count_by(after, l2 as usize, overs.after),
        ),
    }
}

// Adds what rule r counts for.
fn add_parts(
    grammar: &IndexedGrammar,
    r: usize,
    position: usize,
    closing: usize,
    overs: Overs,
    rows: &mut Rows,
)
    requires r_bound { (r < 128) × Below 32 (rule_in grammar.now.table.now r) }
    requires position_bound { (position < 1025) × (closing < 1025) × OversBehind rows.old position closing overs }
    ensures { Added rows.old position (left (rule_in grammar.now.table.now r)) (parts_behind rows.old position closing (rule_in grammar.now.table.now r)) rows.new }
{
    let l = tables::left_in(grammar.table, r) as usize;
    let n = parts_of(
        tables::rule_of(grammar.table, r),
        rows,
        position,
        closing,
        overs,
    );
    rows.add_at(position, l, n);
}

// Adds the empty rule of nonterminal l, where there is one and it is allowed.
fn add_end(grammar: &IndexedGrammar, l: usize, p: usize, alone: Option<Alone>, rows: &mut Rows)
    requires l_bound { l < 32 }
    requires p_bound { p < 1025 }
    ensures { AddedIf (ltb (end_in grammar.now.table.now l) grammar.now.head.rules && allowed_by alone p (end_in grammar.now.table.now l)) rows.old p l 1 rows.new }
{
    let r = grammar.end(l);
    if r < grammar.head.rules && allowed(p, r, alone) {
        rows.add_at(p, l, Some(1));
    }
}

// The counts at a mark or an open: only the rules of the token's class are looked at.
fn class_row(grammar: &IndexedGrammar, context: Context, alone: Option<Alone>, rows: &mut Rows)
    requires kind { code context.kind < 2 }
    requires empty { Empty context rows.old }
    ensures { Filled grammar.now.table.now grammar.now.head context alone rows.old rows.new }
{
    let overs = rows.overs_behind(context);
    for r in contexts::rules_here(grammar, context) {
        if allowed(context.position, r, alone) && contexts::takes(grammar, r, context) {
            add_parts(grammar, r, context.position, context.closing, overs, rows);
        }
    }
}

// The counts where only the empty rules of the first n nonterminals can stand, of which a nonterminal has one at most.
fn ends_row(
    grammar: &IndexedGrammar,
    n: usize,
    context: Context,
    alone: Option<Alone>,
    rows: &mut Rows,
)
    requires n_bound { n ≤ 32 }
    requires empty { Empty context rows.old }
    ensures { EndsOnly grammar.now.table.now grammar.now.head context n → Filled grammar.now.table.now grammar.now.head context alone rows.old rows.new }
{
    for l in 0..n {
        add_end(grammar, l, context.position, alone, rows);
    }
}

// The counts at a close that a rule takes alone: all rules are looked at.
fn all_row(grammar: &IndexedGrammar, context: Context, alone: Option<Alone>, rows: &mut Rows)
    requires { Empty context rows.old }
    ensures { Filled grammar.now.table.now grammar.now.head context alone rows.old rows.new }
{
    let overs = rows.overs_behind(context);
    for r in 0..grammar.head.rules {
        if allowed(context.position, r, alone) && contexts::applies(grammar, r, context) {
            add_parts(grammar, r, context.position, context.closing, overs, rows);
        }
    }
}

// The counts at a close.
fn close_row(grammar: &IndexedGrammar, context: Context, alone: Option<Alone>, rows: &mut Rows)
    requires kind { context.kind ≡ Kind.Close }
    requires empty { Empty context rows.old }
    ensures { Filled grammar.now.table.now grammar.now.head context alone rows.old rows.new }
{
    if contexts::first_here(grammar, context) < grammar.head.rules {
        all_row(grammar, context, alone, rows);
    } else {
        ends_row(grammar, grammar.head.well as usize, context, alone, rows);
    }
}

// The counts at a position.
fn fill_row(grammar: &IndexedGrammar, context: Context, alone: Option<Alone>, rows: &mut Rows)
    requires { Empty context rows.old }
    ensures { Filled grammar.now.table.now grammar.now.head context alone rows.old rows.new }
{
    match context.kind {
        Kind::Mark | Kind::Open => class_row(grammar, context, alone, rows),
        Kind::Close => close_row(grammar, context, alone, rows),
        Kind::End => ends_row(grammar, 32, context, alone, rows),
    }
}

// The counts at every position, from the last one to the first.
pub fn rows_of(input: &Prepared, alone: Option<Alone>, rows: &mut Rows)
    requires { Clear rows.old 1025 }
    ensures { Complete (allowed_by alone) input.now.grammar.head.well (prepared_rules input.now) (prepared_tokens input.now) rows.new }
{
    for i in (0..input.tokens.len() + 1).rev() {
        fill_row(&input.grammar, levels::context_at(input, i), alone, rows);
    }
}

// How many readings there are of which the one rule stands at the one position; all of them where none is alone, or where the position is behind the
// last one.
pub fn count(input: &Prepared, alone: Option<Alone>) -> Count
    ensures { value result ≡ cap (tally (passes (allowed_by alone) 0) (entries (prepared_grammar input.now) (prepared_tokens input.now))) }
{
    if !levels::derives_all(input) {
        return Some(0);
    }
    let start = input.grammar.head.start as usize;
    let mut rows = Rows {
        counts: [[0; 32]; 1026],
        overs: [0; 1026],
    };
    rows_of(input, alone, &mut rows);
    rows.count_at(0, start)
}
