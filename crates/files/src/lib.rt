// The checks of the two files: accepted with the counts, or the first fault.
#![tactic(auto)]

ghost use Rattle.std.specs.Prelude.{◌≡◌};
ghost use Rattle.grammar_file.specs.believed.GrammarFile.{grammar_of};
ghost use Rattle.history_file.specs.believed.HistoryFile.{history_of};
ghost use Rattle.files.specs.believed.Checks.{grammar_said, grammar_due, history_said, history_due};

use refusal::Refusal;
use tables::Table;

// What a grammar file holds: so many nonterminals, document 01's stages, and so many rules.
#[derive(Clone, Copy, Debug, PartialEq, Eq)]
pub struct GrammarCounts {
    pub stages: u16,
    pub rules: u16,
}

pub fn grammar_check(grammar: &[u8]) -> Result<GrammarCounts, Refusal>
    ensures { grammar_said result ≡ grammar_due (grammar_of grammar.now) }
{
    let mut table = Table::new();
    let head = grammar_file::read_grammar(grammar, &mut table)?;
    let rules = head.rules as u16;
    Ok(GrammarCounts {
        stages: head.nonterminals,
        rules,
    })
}

// The number of tokens.
pub fn history_check(history: &[u8]) -> Result<u16, Refusal>
    ensures { history_said result ≡ history_due (history_of history.now) }
{
    let mut tokens = [0; 1024];
    let count = history_file::read_history(history, &mut tokens)?;
    Ok(count as u16)
}
