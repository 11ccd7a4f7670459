// The listing program: reads grammar.bin and history.bin of the working directory, the first 4,096 bytes of each, and writes their listing.
#![tactic(auto)]

ghost use Rattle.std.specs.Prelude.{◌≡◌, ◌≤◌, length};

use std::rt::Files;
use std::{fs, io};
use streams::Sink;

// The first bytes of a file; none where it is missing or can't be read.
fn load(rt: &impl Files, path: &str, buf: &mut [u8]) -> usize
    ensures { result ≤ length buf.new }
{
    let Ok(mut file) = fs::open(rt, path) else {
        return 0;
    };
    streams::read_full(&mut file, buf)
}

// Room for a piece of the listing: all but the very longest listings are one piece.
// A function of its own, so that no proof of `main` writes the array out element by element.
fn space() -> [u8; 1048576]
    ensures { 1048576 ≡ length result }
{
    [0; 1048576]
}

fn main(rt: HostRuntime) -> io::Result<()> {
    let mut grammar = [0u8; 4096];
    let mut history = [0u8; 4096];
    let g = load(&rt, "grammar.bin", &mut grammar);
    let h = load(&rt, "history.bin", &mut history);
    let mut text = space();
    let mut sink = Sink::new(io::writer(&rt));
    listing_output::write_listing(&grammar[..g], &history[..h], &mut text, &mut sink);
    sink.outcome()
}
