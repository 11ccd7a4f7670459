// Stop marks (document 01, "Readings"): which beginnings of the tokens have a reading, by the pair states of Definition 4.2 of the paper.
// One pass from left to right. The states before and after a token are two arrays that take turns: the 32 words are copied at an open alone.
#![tactic(auto)]

ghost use Rattle.std.specs.Prelude.{◌≡◌, ◌++◌, ◌+◌, ◌<◌, ◌≤◌, length, drop};
ghost use Rattle.pair_theory.specs.Depth.{Shallow};
ghost use Rattle.sets_theory.specs.believed.Sets.{stop_marks};
ghost use Rattle.tables.specs.Ready.{grammar_in};
ghost use Rattle.history_file.specs.believed.HistoryFile.{tokens_of};
ghost use Rattle.history_file.specs.HistoryTokens.{Tokens};
ghost use Rattle.stop_marks_core.specs.MarkOf.{mark_of};

use configurations::Stack;
use pair_words::Words;
use rule_index::IndexedGrammar;
use tables::Head;

// The stop mark of a configuration whose state has these words. With no open unmatched it says whether some level may be finished; else whether that of
// the start may, where the start isn't well matched: of the contexts in which nothing is due then, it is the only one.
fn mark_of(words: &Words, depth: usize, empties: u32, head: Head) -> u8
    requires { head.start < 32 }
    ensures { result ≡ mark_of depth words.now empties head }
{
    if depth == 0 {
        return u8::from(pair_states::may_end(words, empties));
    }
    if head.start < head.well {
        return 0;
    }
    let finished = pair_states::finished_of(words, empties);
    u8::from(bits::has(finished as u64, head.start as usize))
}

// The stop marks of the positions 0 to n, for n tokens: out[i] is 1 where the first i tokens have a reading, else 0.
pub fn marks(grammar: &IndexedGrammar, tokens: &[u32], out: &mut [u8])
    requires tokens { Tokens tokens.now }
    requires shallow { Shallow 128 (tokens_of tokens.now) 0 }
    requires tokens_in_bounds { length tokens.now + 1 ≤ length out.old }
    ensures { out.new ≡ stop_marks (grammar_in grammar.now.table.now grammar.now.head) (tokens_of tokens.now) ++ drop (length tokens.now + 1) out.old }
{
    let empties = grammar.ends();
    let mut stack = Stack::new();
    let mut first = pair_states::begin(grammar.head.start);
    let mut second = [0u32; 32];
    let (mut from, mut to) = (&mut first, &mut second);
    for i in 0..tokens.len() {
        out[i] = mark_of(from, stack.depth, empties, grammar.head);
        let token = history_file::token_of(tokens[i]);
        configurations::step(grammar, token, from, to, &mut stack);
        std::mem::swap(&mut from, &mut to);
    }
    out[tokens.len()] = mark_of(from, stack.depth, empties, grammar.head);
}
