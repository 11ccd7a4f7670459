// What the program writes of a case: how many readings there are, what was compared, and, where asked, the readings themselves.
use crate::entries::Entries;
use std::io;
use test_enumerator::Found;

// How many readings the enumerator has listed, and whether these are all.
pub(crate) fn say_count(rt: &impl Print, entries: &Entries) -> io::Result<()> {
    let readings = entries.count();
    match entries.behind {
        Found::GaveUp => rt.print(" the enumerator gave up;"),
        Found::NoReading => print!(rt; " readings {readings};"),
        Found::Reading => print!(rt; " readings {readings} and more;"),
    }
}

// How many choices the service counts.
pub(crate) fn say_choices(rt: &impl Print, count: u32) -> io::Result<()> {
    print!(rt; " choices {count};")
}

// What was compared, and whether it is the same.
pub(crate) fn tell(rt: &impl Print, what: &str, same: bool) -> io::Result<()> {
    let outcome = if same { "same" } else { "DIFFERS" };
    print!(rt; " {what} {outcome};")
}

// Writes bytes as numbers, behind a word, on a line of their own.
pub(crate) fn show_line(rt: &impl Print, word: &str, bytes: &[u8]) -> io::Result<()> {
    print!(rt; "  {word}")?;
    for byte in bytes {
        print!(rt; " {byte}")?;
    }
    println!(rt; "")
}

// Writes each reading of the list.
pub(crate) fn show_list(rt: &impl Print, entries: &Entries) -> io::Result<()> {
    for entry in entries.iter() {
        show_line(rt, "reading", entry)?;
    }
    Ok(())
}
