// The services sets and choice count, over the two files as bytes.
#![tactic(auto)]

ghost use Rattle.std.specs.Prelude.{◌≡◌};
ghost use Rattle.sets.specs.believed.Sets.{sets_due, count_said, count_due};

use refusal::Refusal;
use service::Contents;

// Writes four words for each position, the set of rules that stand there in some reading, and answers how many positions are choices.
pub fn sets(grammar: &[u8], history: &[u8], words: &mut [u32]) -> Result<u32, Refusal>
    ensures { (count_said result, words.new) ≡ sets_due grammar.now history.now words.old }
{
    let mut contents = Contents::new();
    let opened = service::open_files(grammar, history, 4, words.len(), &mut contents)?;
    Ok(sets_core::sets(&opened.prepared(&mut [0; 1025], &mut [0; 1025]), words))
}

// How many positions are choices: two rules of their set are for one nonterminal. No buffer is lent.
pub fn choice_count(grammar: &[u8], history: &[u8]) -> Result<u32, Refusal>
    ensures { count_said result ≡ count_due grammar.now history.now }
{
    let mut contents = Contents::new();
    let opened = service::open_files(grammar, history, 0, 0, &mut contents)?;
    Ok(sets_core::choices(&opened.prepared(&mut [0; 1025], &mut [0; 1025])))
}
