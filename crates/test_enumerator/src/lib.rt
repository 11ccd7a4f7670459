// A plain enumerator of readings, kept for testing: it fills the positions from left to right, tries the rules in their order, and goes
// back where none fits. It shares nothing with the services: no sets of nonterminals, no matching positions, a reader of its own.
#![tactic(auto)]

mod search;
mod written;

pub use search::{Found, Search};
pub use written::{Grammar, History, Right, Rule, Token};
