// Runs the services on every case of cases.bin, compares them with the plain enumerator, and writes a line for each case.
// A case is 13 bytes: the number that is due (0: both files pass), what to do (1: show what is found, 2: compare the marks), then two
// bytes each, low byte first: how many bytes of readings to list, the lengths of label, grammar, history, buffer; one for the calls.
#![tactic(auto)]

mod called;
mod choices;
mod entries;
mod kept_rules;
mod lent;
mod listed;
mod marks;
mod refused;
mod services;
mod shown;

ghost use Rattle.std.specs.Prelude.{◌≤◌, length};

use lent::BYTE;
use shown::{show_line, tell};
use std::io::Read;
use std::{fs, io};
use test_enumerator::{Grammar, History, Search};
use test_packed::{Files, for_each_case, head, part, u16_at};

// The head of a case: the number of the refusal that is due, if any; whether to show what is found and to compare the marks; and the sizes
// of the list of readings and of the case's parts.
#[derive(Clone, Copy)]
struct Head {
    refusal: Option<u8>,
    show: bool,
    marks: bool,
    list: u16,
    label: u16,
    grammar: u16,
    history: u16,
    buffer: u16,
    kinds: u16,
}

fn read_head<F: Read>(cases: &mut F) -> Option<Head> {
    let bytes = head::<F, 13>(cases)?;
    let refusal = (bytes[0] != 0).then_some(bytes[0]);
    Some(Head {
        refusal,
        show: bytes[1] & 1 != 0,
        marks: bytes[1] & 2 != 0,
        list: u16_at(&bytes, 2),
        label: u16_at(&bytes, 4),
        grammar: u16_at(&bytes, 6),
        history: u16_at(&bytes, 8),
        buffer: u16_at(&bytes, 10),
        kinds: u16::from(bytes[12]),
    })
}

// What goes by the services and the tokens alone.
fn compare_short(rt: &impl Print, files: Files, search: &Search, with_marks: bool) -> io::Result<()>
    requires { length search.now.tokens.now ≤ 1024 }
{
    let short = refused::short_refused(files, search.tokens.len());
    tell(rt, "short buffers", short)?;
    tell(rt, "short answers", refused::calls_refused(files))?;
    if with_marks {
        tell(rt, "marks", marks::same_marks(files, search))?;
    }
    Ok(())
}

// A case whose files pass.
fn compare_case(
    rt: &impl Print,
    head: Head,
    files: Files,
    kinds: &[u8],
    buffer: &mut [u8],
) -> io::Result<()>
    requires { length buffer.old ≤ 4096 }
{
    let grammar = Grammar::read(files.grammar);
    let history = History::read(files.history);
    let search = Search {
        start: grammar.start,
        rules: grammar.rules(),
        tokens: history.tokens(),
    };
    let mut list = [0u8; 65536];
    let mut answers = [BYTE; 300];
    let entries = entries::enumerate(&search, &mut list[..usize::from(head.list)]);
    shown::say_count(rt, &entries)?;
    tell(rt, "list", listed::same_list(files, &entries))?;
    compare_short(rt, files, &search, head.marks)?;
    choices::compare_count(rt, files, grammar.rules(), &entries)?;
    if entries.are_all() {
        tell(rt, "sets", kept_rules::same_sets(files, &entries))?;
        let calls = called::same_calls(files, kinds, &mut answers, buffer, &entries);
        tell(rt, "calls", calls)?;
    }
    println!(rt; "")?;
    if head.show {
        shown::show_list(rt, &entries)?;
        let mut marks = [BYTE; 1028];
        let _ = services::write_marks(files, &mut marks);
        show_line(rt, "marks", &marks[..search.tokens.len() + 1])?;
        show_line(rt, "answers", &answers[..kinds.len().min(300)])?;
    }
    Ok(())
}

fn run_case<F: Read>(rt: &impl Print, cases: &mut F, head: Head) -> io::Result<()> {
    let mut label = [0u8; 4096];
    let mut grammar = [0u8; 4096];
    let mut history = [0u8; 4096];
    let mut buffer = [0u8; 4096];
    let mut kinds = [0u8; 255];
    rt.write_all(part(cases, head.label, &mut label))?;
    print!(rt; ":")?;
    let files = Files {
        grammar: part(cases, head.grammar, &mut grammar),
        history: part(cases, head.history, &mut history),
    };
    let buffer = part(cases, head.buffer, &mut buffer);
    let kinds = part(cases, head.kinds, &mut kinds);
    match head.refusal {
        None => compare_case(rt, head, files, kinds, buffer),
        Some(due) => {
            tell(rt, "refused", refused::all_refused(files, due))?;
            println!(rt; "")
        }
    }
}

fn main(rt: HostRuntime) -> io::Result<()> {
    let mut cases = fs::open(&rt, "cases.bin")?;
    for_each_case(
        &mut cases,
        read_head,
        |cases, head, _| run_case(&rt, cases, head),
    )?;
    Ok(())
}
