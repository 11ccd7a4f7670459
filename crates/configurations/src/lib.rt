// Configurations of pair states (Definitions 4.1 and 4.2 of the paper) over a token: a state, and for each open the state before it.
// The states before and after a token are two arrays that take turns: the 32 words are copied at an open alone.
#![tactic(auto)]

ghost use Rattle.std.specs.Prelude.{◌≤◌};
ghost use Rattle.pair_theory.specs.Depth.{open_after};
ghost use Rattle.configurations.specs.Stack.{StepHolds};

mod stack;

use pair_words::Words;
use rule_index::IndexedGrammar;
pub use stack::Stack;
use vpg::{CloseName, Token};

// Over a close: back to the state before the step's open. With no open before it, only rules that take it alone go on.
fn over_close(
    grammar: &IndexedGrammar,
    name: CloseName,
    from: &Words,
    to: &mut Words,
    stack: &mut Stack,
)
    ensures { StepHolds grammar.now.table.now grammar.now.head (Token.Close name) from.now stack.old to.new stack.new }
{
    match stack.last() {
        None => pair_states::after_token(grammar, Token::Close(name), from, to),
        Some(opened) => {
            pair_states::after_close(grammar, name, from, opened, to);
            stack.pop();
        }
    }
}

// Over one token: puts the words of the derivative of a configuration into to.
pub fn step(grammar: &IndexedGrammar, token: Token, from: &Words, to: &mut Words, stack: &mut Stack)
    requires { open_after token stack.old.depth ≤ 128 }
    ensures { StepHolds grammar.now.table.now grammar.now.head token from.now stack.old to.new stack.new }
{
    match token {
        Token::Mark(_) => pair_states::after_token(grammar, token, from, to),
        Token::Open(name) => {
            stack.push(name, from);
            pair_states::after_token(grammar, token, from, to);
        }
        Token::Close(name) => over_close(grammar, name, from, to, stack),
    }
}
