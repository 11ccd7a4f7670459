// What a pass over the tokens goes by: the grammar, the tokens, and what `prepare` works out of both for each position.
ghost use Rattle.std.proofs.Props.{props};
ghost use Rattle.rule_index.specs.Once.{small_once, form_once};
ghost use Rattle.levels.specs.Levels.{Setting};

use rule_index::IndexedGrammar;

// For each position the first pending close behind it: for an open, its own close. The number of tokens where there is none.
pub type Closes = [u16; 1025];

// For each position a word: digit L says that nonterminal L derives what is ahead in its level, digit 32 + L that it derives all that is left.
pub type Masks = [u64; 1025];

#[derive(Clone, Copy)]
pub struct Prepared<'a> {
    pub grammar: IndexedGrammar<'a>,
    pub tokens: &'a [u32],
    pub closes: &'a Closes,
    pub masks: &'a Masks,
    ghost setting: { Setting grammar.table.now grammar.head tokens.now closes.now masks.now } by { Prim.hlevel (props, small_once, form_once) },
}
