// Reading number k, forward over the tokens: at each position the rule is found by how many readings each rule has.
#![tactic(auto)]

ghost use Rattle.std.specs.Prelude.{◌≡◌, false, suc, ◌+◌, ◌*◌, ◌++◌, ◌<◌, length, get_or, drop, []};
ghost use Rattle.vpg.specs.Runs.{entries};
ghost use Rattle.capped.specs.Capped.{cap, value};
ghost use Rattle.count_theory.specs.Allowed.{anywhere};
ghost use Rattle.tables.specs.Table.{rule_from, rule_in};
ghost use Rattle.tables.specs.Ready.{Below};
ghost use Rattle.count_rows.specs.Rows.{Complete, value_at, parts_at};
ghost use Rattle.contexts.specs.Context.{may_end};
ghost use Rattle.levels.specs.Prepared.{prepared_grammar, prepared_rules, prepared_tokens};
ghost use Rattle.kth_run.specs.Search.{Finds};
ghost use Rattle.kth_run.specs.Walk.{due_with};
ghost use Rattle.kth_run.specs.Kth.{was_written, kth_written};

use capped::Count;
use contexts::Context;
use count_rows::Rows;
use levels::Prepared;
use rule_index::IndexedGrammar;
use tables::Six;

// How many readings have rule r at a position where it fits: any derivation of each of its parts, and any of what is due behind its level.
fn size_of(grammar: &IndexedGrammar, r: usize, context: Context, due: Count, rows: &Rows) -> Count
    requires r_bound { (r < 128) × Below 32 (rule_in grammar.now.table.now r) }
    requires position_bound { (context.position < 1025) × (context.closing < 1025) }
    ensures { value result ≡ cap (parts_at rows.now context (rule_in grammar.now.table.now r) * value due) }
{
    let overs = rows.overs_behind(context);
    let parts = count_rows::parts_of(
        tables::rule_of(grammar.table, r),
        rows,
        context.position,
        context.closing,
        overs,
    );
    capped::product(parts, due)
}

// Which reading is looked for: its nonterminal at a position, how many readings each derivation of the level's rest has behind it, and its
// number among all that have come to this position in the same way, from 0.
#[derive(Clone, Copy)]
pub struct Sought {
    pub nonterminal: u16,
    pub due: Count,
    pub number: u64,
}

// The rule that it has there, and its number among those that have the rule there.
#[derive(Clone, Copy)]
pub struct Found {
    pub rule: usize,
    pub number: u64,
}

// Where the nonterminal can't only end: rule by rule of the token's class, past the readings of each. Behind the last rule nothing was found, which an
// Option would say no plainer: whoever asks knows that there are as many readings.
fn class_search(grammar: &IndexedGrammar, sought: Sought, context: Context, rows: &Rows) -> Found
    requires may_end { may_end grammar.now.head.well context sought.nonterminal ≡ false }
    requires position_bound { (context.position < 1025) × (context.closing < 1025) }
    ensures { Finds grammar.now.table.now grammar.now.head sought context rows.now result }
{
    let mut number = sought.number;
    for rule in contexts::rules_here(grammar, context) {
        if moves::takes(grammar, rule, sought.nonterminal, context) {
            let size = size_of(grammar, rule, context, sought.due, rows);
            if capped::is_below(number, size) {
                return Found { rule, number };
            }
            number = capped::minus(number, size);
        }
    }
    Found {
        rule: grammar.head.rules,
        number,
    }
}

// At any position. Where the nonterminal can only end, it has one empty rule at most, and every reading has it.
fn search(grammar: &IndexedGrammar, sought: Sought, context: Context, rows: &Rows) -> Found
    requires { (context.position < 1025) × (context.closing < 1025) }
    ensures { Finds grammar.now.table.now grammar.now.head sought context rows.now result }
{
    if !contexts::may_end(grammar.head, context, sought.nonterminal) {
        return class_search(grammar, sought, context, rows);
    }
    Found {
        rule: moves::empty_rule(grammar, sought.nonterminal),
        number: sought.number,
    }
}

// What is due at the next position: behind a token that is taken alone what was due at it, inside a step the derivations of its level's rest, each
// with all that is due behind the step's level, and behind the end of a level what is due behind the next close.
fn due_behind(rule: Six, close: usize, rows: &Rows, due: Count, old: Count) -> Count
    requires { Below 32 (rule_from rule) × (close < 1025) }
    ensures { value result ≡ due_with (rule_from rule) (value_at rows.now (suc close)) (value due) (value old) }
{
    match rule.0 {
        0 => old,
        2 => capped::product(rows.count_at(close + 1, rule.5 as usize), due),
        _ => due,
    }
}

// Writes the reading of this number, counted from 0. There are as many.
fn walk(input: &Prepared, number: u64, rows: &Rows, out: &mut [u8])
    requires room { length input.now.tokens.now < length out.old }
    requires complete { Complete anywhere input.now.grammar.head.well (prepared_rules input.now) (prepared_tokens input.now) rows.now }
    requires more { number < length (entries (prepared_grammar input.now) (prepared_tokens input.now)) }
    ensures { out.new ≡ get_or (entries (prepared_grammar input.now) (prepared_tokens input.now)) number [] ++ drop (length input.now.tokens.now + 1) out.old }
{
    let grammar = &input.grammar;
    let n = input.tokens.len();
    let mut behind = [0u16; 1025];
    let mut dues = [Some(1); 1025];
    let mut sought = Sought {
        nonterminal: grammar.head.start,
        due: Some(1),
        number,
    };
    for p in 0..n {
        let context = levels::context_at(input, p);
        let close = context.closing;
        let found = search(grammar, sought, context, rows);
        let rule = tables::six_in(grammar.table, found.rule);
        out[p] = found.rule as u8;
        let due = due_behind(rule, close, rows, sought.due, dues[close]);
        dues[close] = due;
        sought = Sought {
            nonterminal: moves::inner_of(rule, behind[p]),
            due,
            number: found.number,
        };
        moves::store_later(&mut behind, close, rule);
    }
    let end = levels::context_at(input, n);
    out[n] = search(grammar, sought, end, rows).rule as u8;
}

// No reading has the number.
#[derive(Clone, Copy, Debug, PartialEq, Eq)]
pub struct NoSuchReading;

// Writes the reading of number k, counted from 1, if there are as many.
pub fn kth(input: &Prepared, k: u64, out: &mut [u8]) -> Result<(), NoSuchReading>
    requires { length input.now.tokens.now < length out.old }
    ensures { (was_written result, out.new) ≡ kth_written (entries (prepared_grammar input.now) (prepared_tokens input.now)) k (length input.now.tokens.now + 1) out.old }
{
    let number = k.checked_sub(1).ok_or(NoSuchReading)?;
    if !levels::derives_all(input) {
        return Err(NoSuchReading);
    }
    let mut rows = Rows {
        counts: [[0; 32]; 1026],
        overs: [0; 1026],
    };
    count_rows::rows_of(input, None, &mut rows);
    let total = rows.count_at(0, input.grammar.head.start as usize);
    if !capped::is_below(number, total) {
        return Err(NoSuchReading);
    }
    walk(input, number, &rows, out);
    Ok(())
}
