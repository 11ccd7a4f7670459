// Over one position: whether a rule for a nonterminal can stand there, the smallest that can, and where a rule leads.
#![tactic(auto)]

ghost use Rattle.std.specs.Prelude.{◌≡◌, ◌<◌, length, get_or, set};
ghost use Rattle.level_theory.specs.Walk.{inner, later};
ghost use Rattle.tables.specs.Table.{rule_from, rule_in};
ghost use Rattle.rule_index.specs.Index.{FirstEmpty};
ghost use Rattle.contexts.specs.Context.{code, AtKind};
ghost use Rattle.moves.specs.Moves.{rule_fits, Smallest};

use contexts::Context;
use levels::Nonterminals;
use rule_index::IndexedGrammar;
use tables::Six;

// Whether the rule of number r, any rule, is for the nonterminal and can stand here.
pub fn fits(grammar: &IndexedGrammar, r: usize, nonterminal: u16, context: Context) -> bool
    requires { r < grammar.now.head.rules }
    ensures { result ≡ rule_fits grammar.now.head.well (rule_in grammar.now.table.now r) nonterminal context }
{
    tables::left_in(grammar.table, r) == nonterminal && contexts::applies(grammar, r, context)
}

// The same for a rule that stands at tokens of this kind.
pub fn takes(grammar: &IndexedGrammar, r: usize, l: u16, context: Context) -> bool
    requires { (r < grammar.now.head.rules) × AtKind (rule_in grammar.now.table.now r) (code context.kind) }
    ensures { result ≡ rule_fits grammar.now.head.well (rule_in grammar.now.table.now r) l context }
{
    tables::left_in(grammar.table, r) == l && contexts::takes(grammar, r, context)
}

// The empty rule of the nonterminal; the number of rules where there is none. No rule is for a nonterminal from 32 on.
pub fn empty_rule(grammar: &IndexedGrammar, nonterminal: u16) -> usize
    ensures { FirstEmpty grammar.now.table.now grammar.now.head.rules nonterminal result }
{
    if nonterminal < 32 {
        grammar.end(nonterminal as usize)
    } else {
        grammar.head.rules
    }
}

// The smallest rule for the nonterminal that can stand here; the number of rules where there is none.
pub fn smallest(grammar: &IndexedGrammar, nonterminal: u16, context: Context) -> usize
    ensures { Smallest grammar.now.table.now grammar.now.head nonterminal context result }
{
    if contexts::may_end(grammar.head, context, nonterminal) {
        return empty_rule(grammar, nonterminal);
    }
    for r in contexts::rules_here(grammar, context) {
        if takes(grammar, r, nonterminal, context) {
            return r;
        }
    }
    grammar.head.rules
}

// The nonterminal at the next position; d is the one behind the close, where the token is a close.
pub fn inner_of(rule: Six, d: u16) -> u16
    ensures { result ≡ inner (rule_from rule) d }
{
    if rule.0 == 0 {
        return d;
    }
    rule.3
}

// Stores at position j the nonterminal behind the close of a step; any other rule leaves all as it is.
pub fn store_later(behind: &mut Nonterminals, j: usize, rule: Six)
    requires { (length behind.old ≡ 1025) × (j < 1025) }
    ensures { behind.new ≡ set behind.old j (later (rule_from rule) (get_or behind.old j 0)) }
{
    if rule.0 == 2 {
        behind[j] = rule.5;
    }
}
