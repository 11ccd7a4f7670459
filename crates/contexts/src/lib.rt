// What stands at a position, which rules can stand there, and the nonterminals of those rules.
#![tactic(auto)]

ghost use Rattle.std.specs.Prelude.{◌≡◌, ◌&&◌, ◌<◌, ◌≤◌, eqb, leb};
ghost use Rattle.bits.specs.Bit.{bit};
ghost use Rattle.tables.specs.Table.{rule_in};
ghost use Rattle.rule_index.specs.Classes.{class_at};
ghost use Rattle.rule_index.specs.Chain.{rules_from};
ghost use Rattle.rule_index.specs.Index.{after_in, first_in, Indexed};
ghost use Rattle.contexts.specs.Context.{code, kind_with, token_here, low_here, may_end, AtKind, kind_fits, applies_to, base_of, with_left, level_in};

use rule_index::{Chain, IndexedGrammar};
use tables::Head;
use vpg::CloseName;

// What stands at a position, with the numbers that the kinds have in a history: a token of one of three kinds, or the end, as a close of its own.
#[derive(Clone, Copy, PartialEq, Eq)]
pub enum Kind {
    Mark = 0,
    Open = 1,
    Close = 2,
    End = 4,
}

// The number of a kind, by which the index asks for a class (rule_index, below this crate).
impl From<Kind> for u32 {
    ghost from_gives = { λ kind result. result ≡ code kind };

    fn from(kind: Kind) -> u32 {
        kind as u32
    }
}

// The kind of any number, as a pass tells it: all that are no mark's and no open's are a close's, and from 4 on the end's.
impl From<u32> for Kind {
    ghost from_gives = { λ number result. result ≡ kind_with number };

    fn from(number: u32) -> Kind {
        match number {
            0 => Kind::Mark,
            1 => Kind::Open,
            2 | 3 => Kind::Close,
            _ => Kind::End,
        }
    }
}

impl Kind {
    // Whether a level ends here: at a close, and at the end as if a close stood there.
    fn ends(self) -> bool
        ensures { result ≡ leb 2 (code self) }
    {
        matches!(self, Kind::Close | Kind::End)
    }
}

// What stands at a position: the position, the first pending close behind it (for an open, its own), the kind and the name of the token, and the
// word of the position behind the token; for an open also the name of its close and the word of the position behind that. Of the word of a
// position, digit L says that nonterminal L derives what is ahead in its level, digit 32 + L that it derives all that is left. A context is made at
// one point, so it has the token's kind and name: a token carried from there is put together and taken apart again at every position, which took
// a tenth of the time.
#[derive(Clone, Copy)]
pub struct Context {
    pub position: usize,
    pub closing: usize,
    pub kind: Kind,
    pub name: u16,
    pub inside: u64,
    pub close: CloseName,
    pub after: u64,
}

// Whether the nonterminal ends here as a well-matched one does.
fn low_here(head: Head, context: Context, l: u16) -> bool
    ensures { result ≡ low_here head.well context l }
{
    context.kind == Kind::End || l < head.well
}

// Whether the nonterminal can only end here.
pub fn may_end(head: Head, context: Context, l: u16) -> bool
    ensures { result ≡ may_end head.well context l }
{
    context.kind.ends() && low_here(head, context, l)
}

// Whether the close of the step that rule r makes stands here, and what follows it can be derived.
fn closes(grammar: &IndexedGrammar, r: usize, b: CloseName, context: Context) -> bool
    requires { (r < 128) × (after_in grammar.now.table.now r < 64) }
    ensures { result ≡ (eqb b.0 context.close.0 && bit context.after (after_in grammar.now.table.now r)) }
{
    b == context.close && bits::has(context.after, grammar.after(r))
}

// Whether rule r, which stands at tokens of this kind, can stand here. Few of the rules that are asked have the name: it comes first.
pub fn takes(grammar: &IndexedGrammar, r: usize, context: Context) -> bool
    requires { (r < grammar.now.head.rules) × AtKind (rule_in grammar.now.table.now r) (code context.kind) }
    ensures { result ≡ applies_to grammar.now.head.well (rule_in grammar.now.table.now r) context }
{
    let v = tables::six_in(grammar.table, r);
    if v.2 == context.name {
        if bits::has(context.inside, grammar.inside(r)) {
            if v.0 == 2 {
                return closes(grammar, r, CloseName(v.4), context);
            }
            return true;
        }
    }
    false
}

// Whether a rule of this form stands at tokens of this kind. At the end only empty rules do.
fn kind_fits(form: u16, kind: Kind) -> bool
    ensures { result ≡ kind_fits form (code kind) }
{
    match form {
        4 => kind == Kind::Close,
        2 | 3 => kind == Kind::Open,
        _ => kind == Kind::Mark,
    }
}

// Whether the rule of number r, any rule, can stand here, whatever nonterminal it is for.
pub fn applies(grammar: &IndexedGrammar, r: usize, context: Context) -> bool
    requires { r < grammar.now.head.rules }
    ensures { result ≡ applies_to grammar.now.head.well (rule_in grammar.now.table.now r) context }
{
    let v = tables::six_in(grammar.table, r);
    if v.0 == 0 {
        return may_end(grammar.head, context, v.1);
    }
    if kind_fits(v.0, context.kind) {
        return takes(grammar, r, context);
    }
    false
}

// The class of the token.
fn class_here(context: Context) -> usize
    ensures { (result ≡ class_at (token_here context)) × (result < 256) }
{
    rule_index::class_by(u32::from(context.kind), context.name)
}

// The first rule of the token's class; the number of rules where there is none.
pub fn first_here(grammar: &IndexedGrammar, context: Context) -> usize
    ensures { result ≡ first_in grammar.now.table.now (class_at (token_here context)) }
{
    grammar.first(class_here(context))
}

// The rules of the token's class.
pub fn rules_here<'a>(grammar: &IndexedGrammar<'a>, context: Context) -> Chain<'a>
    ensures { result ≡ rules_from grammar.now.table.now grammar.now.head.rules (class_at (token_here context)) 0 }
{
    grammar.chain(class_here(context))
}

// The set with the nonterminal of rule r, where the rule can stand here.
fn with_left(set: u32, grammar: &IndexedGrammar, r: usize, context: Context) -> u32
    requires { (r < grammar.now.head.rules) × AtKind (rule_in grammar.now.table.now r) (code context.kind) }
    ensures { result ≡ with_left grammar.now.head.well set (rule_in grammar.now.table.now r) context }
{
    if takes(grammar, r, context) {
        bits::with(set, tables::left_in(grammar.table, r) as usize)
    } else {
        set
    }
}

// The nonterminals that an empty rule lets stand here.
fn base_of(grammar: &IndexedGrammar, context: Context) -> u32
    ensures { result ≡ base_of grammar.now.table.now context }
{
    if context.kind.ends() {
        return grammar.low_ends();
    }
    0
}

// The nonterminals of the rules that can stand at a token.
pub fn level(grammar: &IndexedGrammar, context: Context) -> u32
    requires { code context.kind < 4 }
    ensures { result ≡ level_in grammar.now.head.well grammar.now.table.now context grammar.now.head.rules }
{
    let mut set = base_of(grammar, context);
    for r in rules_here(grammar, context) {
        set = with_left(set, grammar, r, context);
    }
    set
}
