// The opening of every service over the two files: both are read, the grammar first, the rules are indexed, and the buffer is measured. Then
// the service goes by what the opening found, or hands on the refusal.
#![tactic(auto)]

ghost use Rattle.std.specs.Prelude.{◌≤◌, ◌≡◌};
ghost use Rattle.service.specs.believed.Opened.{files_in};
ghost use Rattle.service.specs.Opening.{nothing_read, OpenedIs};

mod opened;

pub use opened::{Contents, Opened};
use refusal::Refusal;
use rule_index::IndexedGrammar;

// Opens a service that writes or reads `each` elements for each position, in a buffer of `size` elements.
pub fn open_files<'a>(
    grammar: &[u8],
    history: &[u8],
    each: usize,
    size: usize,
    contents: &'a mut Contents,
) -> Result<Opened<'a>, Refusal>
    requires { (contents.old ≡ nothing_read) × (each ≤ 255) }
    ensures { OpenedIs each size (files_in grammar.now history.now) result }
{
    let head = grammar_file::read_grammar(grammar, &mut contents.table)?;
    rule_index::index_rules(&mut contents.table, head);
    let count = history_file::read_history(history, &mut contents.numbers)?;
    if size < each * (count + 1) {
        return Err(Refusal::ShortBuffer);
    }
    let grammar = IndexedGrammar {
        table: &contents.table,
        head,
    };
    Ok(Opened {
        grammar,
        tokens: &contents.numbers[..count],
    })
}
