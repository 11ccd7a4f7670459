// States of pairs of nonterminals (Definition 4.1 of the paper) as 32 words, and their derivatives by a token (Definition 4.2).
// Digit L1 of word L2 is 1 where the pair (L1, L2), of context and current nonterminal, is in the state.
#![tactic(auto)]

ghost use Rattle.std.specs.Prelude.{◌≡◌, [], ◌<◌};
ghost use Rattle.pair_theory.specs.Pairs.{PairState, single, over_return, derivative};
ghost use Rattle.pair_states.specs.Encodes.{Encodes};
ghost use Rattle.pair_states.specs.Finished.{finished_of, may_end};
ghost use Rattle.pair_states.specs.Wide.{wide_grammar};

use pair_words::Words;
use rule_index::IndexedGrammar;
use vpg::{CloseName, OpenName, Token};

// The contexts whose level may be finished: a current nonterminal has an empty rule.
#[tactic(auto, unfolding(crate::specs::Finished::finished_of))]
pub fn finished_of(words: &Words, empties: u32) -> u32
    ensures { result ≡ finished_of words.now empties 32 }
{
    let mut set: u32 = 0;
    // Each word is read before the test: read behind it, each test was compiled to a branch.
    for (k, &word) in words.iter().enumerate() {
        if bits::has(empties as u64, k) {
            set |= word;
        }
    }
    set
}

// Whether the level of some context may be finished.
pub fn may_end(words: &Words, empties: u32) -> bool
    ensures { result ≡ may_end words.now empties }
{
    finished_of(words, empties) != 0
}

// The words of the state that has the pair (start, start) alone.
pub fn begin(start: u16) -> Words
    requires { start < 32 }
    ensures { Encodes result (single start start) }
{
    let current = start as usize;
    let mut words = [0u32; 32];
    words[current] = bits::with(0, current);
    words
}

// Definition 4.2 (1) and (2), and a close with no open before it: puts the words of the derivative by the token into out.
pub fn after_token(grammar: &IndexedGrammar, token: Token, words: &Words, out: &mut Words)
    ensures { (S : PairState) → Encodes words.now S → Encodes out.new (derivative (wide_grammar grammar.now.table.now grammar.now.head) token (S, [])).0 }
{
    pair_words::words_after(grammar, token, words, out);
}

// An open step: the name of its open, and the words of the state before it.
#[derive(Clone, Copy)]
pub struct Opened {
    pub name: OpenName,
    pub words: Words,
}

// Definition 4.2 (3): puts the words of the derivative by the close of an open step into out; words has those of its inside.
pub fn after_close(
    grammar: &IndexedGrammar,
    name: CloseName,
    words: &Words,
    opened: &Opened,
    out: &mut Words,
)
    ensures { (S S₁ : PairState) → Encodes words.now S → Encodes opened.now.words S₁ → Encodes out.new (over_return (wide_grammar grammar.now.table.now grammar.now.head) name S S₁ opened.now.name) }
{
    pair_words::words_after(grammar, Token::Close(name), words, out);
    let done = finished_of(words, grammar.ends());
    pair_words::words_behind(grammar, opened.name, name, done, &opened.words, out);
}
