// A buffer gone over as a reading: the nonterminal at each position and behind each close, or that the buffer holds no reading.
#![tactic(auto)]

ghost use Rattle.std.specs.Prelude.{◌≡◌, ◌&&◌, suc, ◌<◌, ltb, length, take};
ghost use Rattle.tables.specs.Table.{rule_in};
ghost use Rattle.levels.specs.Prepared.{prepared_grammar, prepared_tokens};
ghost use Rattle.moves.specs.Moves.{rule_fits};
ghost use Rattle.replay.specs.Replayed.{ReplayIs};

use contexts::Context;
use levels::{Nonterminals, Prepared};
use rule_index::IndexedGrammar;

// What a reading says: the nonterminal at each position, and the nonterminal behind each close.
#[derive(Clone, Copy)]
pub struct Replayed {
    pub at: Nonterminals,
    pub behind: Nonterminals,
}

// Whether r is a rule for the nonterminal that can stand here.
fn stands(grammar: &IndexedGrammar, r: usize, nonterminal: u16, context: Context) -> bool
    ensures { result ≡ (ltb r grammar.now.head.rules && rule_fits grammar.now.head.well (rule_in grammar.now.table.now r) nonterminal context) }
{
    r < grammar.head.rules && moves::fits(grammar, r, nonterminal, context)
}

// Goes over the numbers in the buffer as long as each is a rule that can stand where it does. Where the start doesn't derive all tokens, they are
// no reading.
pub fn replay(input: &Prepared, reading: &[u8]) -> Option<Replayed>
    requires tokens_in_bounds { length input.now.tokens.now < length reading.now }
    ensures { ReplayIs (prepared_grammar input.now) (prepared_tokens input.now) (take (suc (length input.now.tokens.now)) reading.now) result }
{
    if !levels::derives_all(input) {
        return None;
    }
    let n = input.tokens.len();
    // The arrays are filled where they are handed on from: two of their own would be copied once more.
    let mut replayed = Replayed {
        at: [0u16; 1025],
        behind: [0u16; 1025],
    };
    replayed.at[0] = input.grammar.head.start;
    for p in 0..n {
        let r = reading[p] as usize;
        let context = levels::context_at(input, p);
        if !stands(&input.grammar, r, replayed.at[p], context) {
            return None;
        }
        let rule = tables::six_in(input.grammar.table, r);
        let j = levels::close_at(input.closes, p);
        replayed.at[p + 1] = moves::inner_of(rule, replayed.behind[p]);
        moves::store_later(&mut replayed.behind, j, rule);
    }
    let end = levels::context_at(input, n);
    if !stands(&input.grammar, reading[n] as usize, replayed.at[n], end) {
        return None;
    }
    Some(replayed)
}
