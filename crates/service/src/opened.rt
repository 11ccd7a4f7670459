// Both files as a service goes on with them, once they have passed, and where it keeps what they say.
ghost use Rattle.std.proofs.Props.{props};
ghost use Rattle.service.specs.Passed.{Passed, nested_once};

use history_file::TokenNumbers;
use levels::{Closes, Masks, Prepared};
use rule_index::IndexedGrammar;
use tables::Table;

// Room for what the files say: the rules of the grammar, and the numbers of the history's tokens in front.
#[derive(Clone, Copy)]
pub struct Contents {
    pub table: Table,
    pub numbers: TokenNumbers,
}

impl Contents {
    ghost use Rattle.std.specs.Prelude.{◌≡◌};
    ghost use Rattle.service.specs.Opening.{nothing_read};

    // All zeros.
    pub fn new() -> Contents
        ensures { result ≡ nothing_read }
    {
        Contents {
            table: Table::new(),
            numbers: [0; 1024],
        }
    }
}

// The grammar with its index, and the numbers of the history's tokens.
#[derive(Clone, Copy)]
pub struct Opened<'a> {
    pub grammar: IndexedGrammar<'a>,
    pub tokens: &'a [u32],
    ghost passed: { Passed tokens.now } by { Prim.hlevel (props, nested_once) },
}

impl<'a> Opened<'a> {
    ghost use Rattle.service.specs.Opening.{IsPreparedOf};

    // What a pass over the tokens goes by, in two arrays that its caller lends.
    pub fn prepared(&'a self, closes: &'a mut Closes, masks: &'a mut Masks) -> Prepared<'a>
        ensures { IsPreparedOf self.now result }
    {
        levels::prepare(&self.grammar, self.tokens, closes, masks);
        Prepared {
            grammar: self.grammar,
            tokens: self.tokens,
            closes,
            masks,
        }
    }
}
