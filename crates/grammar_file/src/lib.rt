// Reads a grammar file: its head and the rules as a table, or the number of the first fault in file order.
#![tactic(auto)]

ghost use Rattle.std.specs.Prelude.{◌≡◌, [], ◌≤◌, OnOk, IfOk};
ghost use Rattle.refusal.specs.Numbered.{numbered};
ghost use Rattle.refusal.specs.declared.Refusal.{Refusal};
ghost use Rattle.numbers.specs.believed.Number.{number_at, bytes};
ghost use Rattle.numbers.specs.believed.Field.{count_at};
ghost use Rattle.tables.specs.Table.{no_table};
ghost use Rattle.grammar_file.specs.believed.GrammarFile.{after, rules_from, counted_from, without_start, with_start, grammar_of};
ghost use Rattle.grammar_file.specs.GrammarTable.{grammar_read, IsHead, rules_of};

use numbers::Read;
use refusal::Refusal;
use tables::{Head, Table};

// At most this many nonterminals, and this many rules.
const NONTERMINALS: u32 = 32;

const RULES: u32 = 128;

// The stage count at a place.
fn stages_at(s: &[u8], at: usize) -> Read<u16>
    ensures { result ≡ count_at (number_at s.now) at 32 Refusal.StageCount }
{
    numbers::count_at(s, at, NONTERMINALS, Refusal::StageCount)
}

// The rule count at a place, which ends the head.
fn counted_at(s: &[u8], at: usize, nonterminals: u16, start: u16) -> Read<Head>
    ensures told { after result (rules_of (bytes s.now)) ≡ counted_from (bytes s.now) at nonterminals start }
    ensures head { IfOk result (λ read. IsHead read.0) }
{
    let (due, next) = numbers::count_at(s, at, RULES, Refusal::RuleCount)?;
    let head = Head {
        nonterminals,
        well: nonterminals,
        start,
        rules: due as usize,
    };
    Ok((head, next))
}

// The head of a file that doesn't say its start, which is nonterminal 0.
fn without_start(s: &[u8]) -> Read<Head>
    ensures told { after result (rules_of (bytes s.now)) ≡ without_start (bytes s.now) }
    ensures head { IfOk result (λ read. IsHead read.0) }
{
    let (nonterminals, next) = stages_at(s, 0)?;
    counted_at(s, next, nonterminals, 0)
}

// The head of a file that says its start, from the place behind its leading 0.
fn with_start(s: &[u8], at: usize) -> Read<Head>
    ensures told { after result (rules_of (bytes s.now)) ≡ with_start (bytes s.now) at }
    ensures head { IfOk result (λ read. IsHead read.0) }
{
    let (nonterminals, next) = stages_at(s, at)?;
    let (start, behind) = numbers::field_at(s, next, nonterminals as u32, Refusal::Stage)?;
    counted_at(s, behind, nonterminals, start)
}

// What stands before the rules, and their place.
#[tactic(auto, unfolding(crate::specs::believed::GrammarFile::grammar_from))]
fn head_at(s: &[u8]) -> Read<Head>
    ensures told { after result (rules_of (bytes s.now)) ≡ grammar_of s.now }
    ensures head { IfOk result (λ read. IsHead read.0) }
{
    match numbers::number_at(s, 0) {
        Ok((0, next)) => with_start(s, next),
        _ => without_start(s),
    }
}

// The rules that the head announces, from a place to the end, into a table of zeros.
#[tactic(auto, unfolding(crate::specs::believed::GrammarFile::rules_from))]
fn rules_at(s: &[u8], from: usize, head: Head, table: &mut Table) -> Result<Head, Refusal>
    requires { IsHead head × (table.old ≡ no_table) }
    ensures told { numbered result ≡ (grammar_read (rules_of (bytes s.now) head from)).0 }
    ensures filled { OnOk result (table.new ≡ (grammar_read (rules_of (bytes s.now) head from)).1) }
{
    let count = head.rules;
    let mut keys = [0u32; 64];
    let mut at = from;
    for k in 0..count {
        let (rule, next) = rules::rule_at(s, at, head.nonterminals)?;
        if tables::seen(table, k, rule, &keys) {
            return Err(Refusal::RepeatedRule);
        }
        let six = tables::six_of(rule);
        tables::put(table, k, six);
        tables::mark_key(&mut keys, six);
        at = next;
    }
    if at < s.len() {
        return Err(Refusal::BytesFollow);
    }
    Ok(head)
}

// Reads the file into a table of zeros that the caller lends; a refused file leaves zeros.
pub fn read_grammar(s: &[u8], table: &mut Table) -> Result<Head, Refusal>
    requires { table.old ≡ no_table }
    ensures { (numbered result, table.new) ≡ grammar_read (grammar_of s.now) }
{
    let (head, at) = head_at(s)?;
    let answer = rules_at(s, at, head, table);
    if answer.is_err() {
        *table = Table::new();
    }
    answer
}
