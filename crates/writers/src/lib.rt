// Writers for both files: from the numbers of a file, one element each, the bytes into a lent buffer, and how many there are (document 02,
// 2.2). The elements are encoded beside the buffer and judged by the reader itself, so that a refusal writes nothing. A grammar is always
// written with its start (2.3).
#![tactic(auto)]

ghost use Rattle.std.specs.Prelude.{◌≡◌, ◌++◌, ◌<◌, length};
ghost use Rattle.elements.specs.Encoded.{encoded};
ghost use Rattle.grammar_file.specs.believed.GrammarFile.{grammar_of};
ghost use Rattle.history_file.specs.believed.HistoryFile.{history_of};
ghost use Rattle.writers.specs.Longer.{longer_form};
ghost use Rattle.writers.specs.believed.Writers.{write_said, filled, grammar_filled, history_filled, grammar_written, history_written};

use elements::Encoding;
use refusal::Refusal;

// Bytes of a file, which come in two parts: into the buffer, where it has room. The length of the file.
fn fill(front: &[u8], rest: &[u8], out: &mut [u8]) -> Result<usize, Refusal>
    ensures { (write_said result, out.new) ≡ filled (front.now ++ rest.now) out.old }
{
    let size = front.len() + rest.len();
    if out.len() < size {
        return Err(Refusal::ShortBuffer);
    }
    out[..front.len()].copy_from_slice(front);
    out[front.len()..size].copy_from_slice(rest);
    Ok(size)
}

// Bytes of a grammar file with either beginning: into the buffer in the longer form, with the start, 0, where the file doesn't say it.
fn fill_longer(file: &[u8], out: &mut [u8]) -> Result<usize, Refusal>
    ensures { (write_said result, out.new) ≡ filled (longer_form file.now) out.old }
{
    match file {
        [stages @ 1.., rest @ ..] => fill(&[0, *stages, 0], rest, out),
        _ => fill(&[], file, out),
    }
}

// A grammar file: into the buffer, where the reader lets it through.
fn fill_grammar(file: &[u8], out: &mut [u8]) -> Result<usize, Refusal>
    ensures { (write_said result, out.new) ≡ grammar_filled (grammar_of file.now) out.old }
{
    files::grammar_check(file)?;
    fill_longer(file, out)
}

// A history file: into the buffer, where the reader lets it through.
fn fill_history(file: &[u8], out: &mut [u8]) -> Result<usize, Refusal>
    ensures { (write_said result, out.new) ≡ history_filled (history_of file.now) out.old }
{
    files::history_check(file)?;
    fill(&[], file, out)
}

// Writes a grammar file: a 0, stage count, start, rule count, and the numbers of each rule, from a file's numbers with either beginning.
#[tactic(auto, using(sources::proofs::Encoded::grammar_encoded))]
pub fn write_grammar(numbers: &[u32], out: &mut [u8]) -> Result<usize, Refusal>
    ensures { (write_said result, out.new) ≡ grammar_written numbers.now out.old }
{
    let mut file = [0; 3078];
    fill_grammar(encoded(numbers, &mut file), out)
}

// Writes a history file: token count, and the number of each token.
#[tactic(auto, using(sources::proofs::Encoded::history_encoded))]
pub fn write_history(numbers: &[u32], out: &mut [u8]) -> Result<usize, Refusal>
    ensures { (write_said result, out.new) ≡ history_written numbers.now out.old }
{
    let mut file = [0; 3078];
    fill_history(encoded(numbers, &mut file), out)
}

// The bytes of the elements, in room that the caller lends.
fn encoded<'a>(numbers: &[u32], file: &'a mut Encoding) -> &'a [u8]
    requires { length file.old ≡ 3078 }
    ensures { result.now ≡ encoded numbers.now }
{
    let size = elements::encode(numbers, file);
    &file[..size]
}
