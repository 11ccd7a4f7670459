// The cores of sets and of the choice count: one pass from left to right over the positions.
#![tactic(auto)]

ghost use Rattle.std.specs.Prelude.{◌≡◌, ◌++◌, ◌+◌, ◌*◌, ◌<◌, ◌≤◌, ltb, true, length, take, drop, get_or, set};
ghost use Rattle.std.specs.Int.Bits.{bit_or};
ghost use Rattle.sets_theory.specs.believed.Sets.{one, choice_count, set_words};
ghost use Rattle.levels.specs.Prepared.{prepared_grammar, prepared_tokens};
ghost use Rattle.rule_set.specs.RuleSet.{ways_in, words_in};
ghost use Rattle.sets_core.specs.Start.{start_set};

use contexts::Context;
use levels::Prepared;
use rule_index::IndexedGrammar;
use rule_set::Ways;

// The nonterminals that can stand at position 0: the start, if it derives the tokens.
fn start_set(derives: bool, start: u16) -> u32
    requires { start < 32 }
    ensures { result ≡ start_set derives start }
{
    if derives {
        bits::with(0, start as usize)
    } else {
        0
    }
}

// For each position where a close stands the nonterminals that can stand behind it.
type Behind = [u32; 1025];

// Stores the nonterminals that can stand behind the close at position j, and answers those that can stand at the next position.
// Behind position p itself there are some only if a close stands there.
fn onward(behind: &mut Behind, p: usize, j: usize, ways: Ways) -> u32
    requires { (length behind.old ≡ 1025) × (p < 1025) × (j < 1025) }
    ensures { (result ≡ bit_or (get_or behind.old p 0) ways.next) × (behind.new ≡ set behind.old j (bit_or (get_or behind.old j 0) ways.behind)) }
{
    let next = behind[p] | ways.next;
    behind[j] |= ways.behind;
    next
}

// One more where the position is a choice: the sum over the rules of its set is above the word of their nonterminals, which are those that can
// stand here and derive the rest of the level.
fn counted(total: u32, sum: u64, met: u32) -> u32
    requires { total < 2000 }
    ensures { result ≡ one (ltb met sum) + total }
{
    total + u32::from(u64::from(met) < sum)
}

// The ways on at position p and, if WRITE, the set of rules there, in the four words of the position.
fn row<const WRITE: bool>(
    grammar: &IndexedGrammar,
    here: u32,
    context: Context,
    p: usize,
    words: &mut [u32],
) -> Ways
    requires { WRITE ≡ true → 4 * p + 4 ≤ length words.old }
    ensures { (result ≡ ways_in grammar.now.head.well grammar.now.table.now here context grammar.now.head.rules) × (WRITE ≡ true → words.new ≡ take (4 * p) words.old ++ words_in grammar.now.head.well grammar.now.table.now here context grammar.now.head.rules ++ drop (4 * p + 4) words.old) }
{
    if WRITE {
        rule_set::set_at(grammar, here, context, &mut words[4 * p..4 * p + 4])
    } else {
        rule_set::ways_at(grammar, here, context)
    }
}

// One pass over the positions: it answers how many of them are choices and, if WRITE, writes the set of rules at each, four words each.
fn one_pass<const WRITE: bool>(input: &Prepared, words: &mut [u32]) -> u32
    requires tokens_in_bounds { WRITE ≡ true → 4 * (length input.now.tokens.now + 1) ≤ length words.old }
    ensures { (result ≡ choice_count (prepared_grammar input.now) (prepared_tokens input.now)) × (WRITE ≡ true → words.new ≡ set_words (prepared_grammar input.now) (prepared_tokens input.now) ++ drop (4 * (length input.now.tokens.now + 1)) words.old) }
{
    let mut behind = [0u32; 1025];
    let mut here = start_set(levels::derives_all(input), input.grammar.head.start);
    let mut count: u32 = 0;
    for p in 0..input.tokens.len() + 1 {
        let context = levels::context_at(input, p);
        let ways = row::<WRITE>(&input.grammar, here, context, p, words);
        count = counted(count, ways.sum, here & bits::low_half(input.masks[p]));
        here = onward(&mut behind, p, levels::close_at(input.closes, p), ways);
    }
    count
}

// Writes the set of rules at each position, four words each, and answers how many positions are choices.
pub fn sets(input: &Prepared, words: &mut [u32]) -> u32
    requires tokens_in_bounds { 4 * (length input.now.tokens.now + 1) ≤ length words.old }
    ensures { (result ≡ choice_count (prepared_grammar input.now) (prepared_tokens input.now)) × (words.new ≡ set_words (prepared_grammar input.now) (prepared_tokens input.now) ++ drop (4 * (length input.now.tokens.now + 1)) words.old) }
{
    one_pass::<true>(input, words)
}

// How many positions are choices, where nobody asks for the sets.
pub fn choices(input: &Prepared) -> u32
    ensures { result ≡ choice_count (prepared_grammar input.now) (prepared_tokens input.now) }
{
    one_pass::<false>(input, &mut [])
}
