// The listing of two files as text: the files are read once, the levels worked out once, and each reading made from the one before it.
#![tactic(auto)]

ghost use Rattle.std.specs.Prelude.{◌≡◌, ◌++◌, length};
ghost use Rattle.vpg.specs.Runs.{entries};
ghost use Rattle.sets_theory.specs.believed.Sets.{choice_count};
ghost use Rattle.grammar_file.specs.believed.GrammarFile.{grammar_of};
ghost use Rattle.history_file.specs.believed.HistoryFile.{HistoryFile};
ghost use Rattle.files.specs.believed.Files.{refused, files_of};
ghost use Rattle.levels.specs.Prepared.{prepared_grammar, prepared_tokens};
ghost use Rattle.refusal.specs.believed.Refusal.{number};
ghost use Rattle.next_run.specs.Next.{next_said};
ghost use Rattle.lines.specs.Lays.{Lays};
ghost use Rattle.lines.specs.believed.Text.{tokens_line, none_line, choices_line};
ghost use Rattle.listing_text.specs.believed.Listing.{listed_from, most_listed, readings_listed, files_listed, listing};
ghost use Rattle.listing_text.specs.Passing.{Begun, is_written};

use first_run::Answer;
use levels::Prepared;
use lines::Text;
use next_run::NotAReading;
use refusal::Refusal;
use service::Contents;
use std::io::Write;

// A piece of the listing: how many bytes of the listing stand before its end, how many of them are its own, and whether another is to follow.
// Of the piece that is answered `more` is false; the definition of all pieces (`Written`) asks for it of each.
#[derive(Clone, Copy)]
pub struct Piece {
    pub end: usize,
    pub length: usize,
    pub more: bool,
}

// At most so many readings are listed.
const MOST: usize = 1000;

// Whether a reading stands in the buffer.
fn is_written(answer: Result<Answer, NotAReading>) -> bool
    ensures { result ≡ is_written (next_said answer) }
{
    matches!(answer, Ok(Answer::Written))
}

// The text behind the first line where the buffer holds the first reading: how many choices there are, a thousand readings at most, and the last line.
fn list_readings<W: Write>(input: &Prepared, reading: &mut [u8], text: &mut Text<'_, W>)
    requires { Begun (entries (prepared_grammar input.now) (prepared_tokens input.now)) (length input.now.tokens.now) reading.old }
    ensures { Lays W.contents text.old text.new (choices_line (choice_count (prepared_grammar input.now) (prepared_tokens input.now)) ++ listed_from most_listed 0 (entries (prepared_grammar input.now) (prepared_tokens input.now))) }
{
    let n = input.tokens.len();
    let choices = sets_core::choices(input);
    text.choices_line(choices as usize);
    for k in 1..=MOST {
        text.reading_line(k, &reading[..n + 1]);
        let answer = next_run::next(input, reading);
        if !is_written(answer) {
            text.end_line(k);
            return;
        }
    }
    text.more_line(MOST);
}

// The text where both files pass.
fn list_accepted<W: Write>(input: &Prepared, text: &mut Text<'_, W>)
    ensures { Lays W.contents text.old text.new (tokens_line (length input.now.tokens.now) ++ readings_listed (choice_count (prepared_grammar input.now) (prepared_tokens input.now)) (entries (prepared_grammar input.now) (prepared_tokens input.now))) }
{
    text.tokens_line(input.tokens.len());
    let mut reading = [0; 1025];
    let found = first_run::first(input, &mut reading);
    if is_written(Ok(found)) {
        list_readings(input, &mut reading, text);
    } else {
        text.none_line();
    }
}

// The text where a file is refused: by the same number, whichever it is.
fn list_refused<W: Write>(grammar: &[u8], refusal: Refusal, text: &mut Text<'_, W>)
    ensures { (h : HistoryFile) → files_of (grammar_of grammar.now) h ≡ refused (number refusal) → Lays W.contents text.old text.new (files_listed (grammar_of grammar.now) h) }
{
    let number: u8 = refusal.into();
    match files::grammar_check(grammar) {
        Err(_) => text.refused_grammar_line(number as usize),
        Ok(_) => text.refused_history_line(number as usize),
    }
}

// Hands the listing to the sink in pieces as long as the buffer, but for the last piece, which it leaves there.
pub fn list<W: Write>(grammar: &[u8], history: &[u8], text: &mut Text<'_, W>)
    ensures { Lays W.contents text.old text.new (listing grammar.now history.now) }
{
    match service::open_files(grammar, history, 0, 0, &mut Contents::new()) {
        Ok(opened) => list_accepted(&opened.prepared(&mut [0; 1025], &mut [0; 1025]), text),
        Err(refusal) => list_refused(grammar, refusal, text),
    }
}
