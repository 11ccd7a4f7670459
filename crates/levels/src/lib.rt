// Arrays by position, in one pass backward over the tokens: the matching closes, and which nonterminals derive what is ahead.
#![tactic(auto)]

ghost use Rattle.std.specs.Prelude.{◌≡◌, Bool, ℕ, ◌/◌, ◌<◌, ◌≤◌, List, length, get_or};
ghost use Rattle.bits.specs.Bit.{bit};
ghost use Rattle.vpg.specs.believed.Grammar.{Rules};
ghost use Rattle.level_theory.specs.Masks.{onto};
ghost use Rattle.contexts.specs.Context.{code, end_context};
ghost use Rattle.rule_index.specs.Goals.{goal};
ghost use Rattle.history_file.specs.believed.HistoryFile.{token_with, tokens_of};
ghost use Rattle.history_file.specs.HistoryTokens.{Tokens};
ghost use Rattle.levels.specs.Levels.{next_top, Matched, Leveled, Stands, floor_of, derives_all, Setting};

mod prepared;

use contexts::{Context, Kind};
pub use prepared::{Closes, Masks, Prepared};
use rule_index::IndexedGrammar;
use vpg::CloseName;

// A nonterminal for each position.
pub type Nonterminals = [u16; 1025];

pub fn close_at(closes: &Closes, p: usize) -> usize
    requires { p < 1025 }
    ensures { result ≡ get_or closes.now p 0 }
{
    closes[p] as usize
}

// The first pending close from position i on, where a token of this kind and of any name stands; top is the first one behind
// the token, beyond the one behind that.
#[tactic(auto, unfolding(history_file::specs::believed::HistoryFile::token_with))]
fn next_top(kind: Kind, i: usize, top: usize, beyond: usize) -> usize
    ensures { (name : ℕ) → result ≡ next_top (token_with (code kind) name) i top beyond }
{
    match kind {
        Kind::Mark => top,
        Kind::Open => beyond,
        Kind::Close | Kind::End => i,
    }
}

fn end_context(n: usize) -> Context
    ensures { result ≡ end_context n }
{
    let close = CloseName(0);
    Context {
        position: n,
        closing: n,
        kind: Kind::End,
        name: 0,
        inside: 0,
        close,
        after: 0,
    }
}

// The word of a position from which on the nonterminals of the set derive what is ahead in their levels. k is the first pending close from there on
// and n the number of tokens: where there is a close, only the nonterminals that are not well matched derive all that is left.
fn word_of(set: u32, k: usize, n: usize, well: u16) -> u64
    requires { well ≤ 32 }
    ensures { (L : ℕ) → L < 32 → (low : Bool) → bit result (goal low L) ≡ onto low (floor_of k n well) (bit set) L }
{
    if k < n {
        return bits::joined(set, bits::from(set, well as usize));
    }
    bits::joined(set, set)
}

fn close_name(t: u32) -> CloseName
    requires { t < 262144 }
    ensures { result.0 ≡ t / 4 }
{
    CloseName(history_file::name_of(t))
}

// What stands at the token of position p, from the words of the positions behind it.
fn context_in(tokens: &[u32], closes: &Closes, masks: &Masks, p: usize) -> Context
    requires tokens { Tokens tokens.now × (p < length tokens.now) }
    requires matched { Matched (tokens_of tokens.now) closes.now p }
    ensures { ((W : ℕ) → Stands W (tokens_of tokens.now) masks.now p result) × (code result.kind < 4) }
{
    let t = tokens[p];
    let kind = Kind::from(t % 4);
    let name = history_file::name_of(t);
    let inside = masks[p + 1];
    let closing = close_at(closes, p);
    if closing < tokens.len() {
        let close = close_name(tokens[closing]);
        let after = masks[closing + 1];
        return Context {
            position: p,
            closing,
            kind,
            name,
            inside,
            close,
            after,
        };
    }
    let close = CloseName(0);
    Context {
        position: p,
        closing,
        kind,
        name,
        inside,
        close,
        after: 0,
    }
}

// What stands at any position.
pub fn context_at(input: &Prepared, p: usize) -> Context
    requires { p ≤ length input.now.tokens.now }
    ensures { (W : ℕ) → Stands W (tokens_of input.now.tokens.now) input.now.masks.now p result }
{
    if p == input.tokens.len() {
        return end_context(p);
    }
    context_in(input.tokens, input.closes, input.masks, p)
}

// Fills both arrays.
pub fn prepare(grammar: &IndexedGrammar, tokens: &[u32], closes: &mut Closes, masks: &mut Masks)
    requires tokens { Tokens tokens.now }
    requires closes_len { (length closes.old ≡ 1025) × (length masks.old ≡ 1025) }
    ensures { Setting grammar.now.table.now grammar.now.head tokens.now closes.new masks.new }
{
    let n = tokens.len();
    let well = grammar.head.well;
    closes[n] = n as u16;
    masks[n] = word_of(grammar.ends(), n, n, well);
    let mut top = n;
    for i in (0..n).rev() {
        let beyond = close_at(closes, top);
        closes[i] = top as u16;
        let context = context_in(tokens, closes, masks, i);
        top = next_top(Kind::from(tokens[i] % 4), i, top, beyond);
        masks[i] = word_of(contexts::level(grammar, context), top, n, well);
    }
}

// Whether the start derives all tokens.
pub fn derives_all(input: &Prepared) -> bool
    ensures { (g : Rules) (ts : List ℕ) → Leveled input.now.grammar.head.well g (tokens_of ts) input.now.masks.now 0 → result ≡ derives_all input.now.grammar.head.well g (tokens_of ts) input.now.grammar.head.start }
{
    bits::has(input.masks[0], 32 + input.grammar.head.start as usize)
}
