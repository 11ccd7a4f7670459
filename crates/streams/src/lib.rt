// Bytes from a stream and bytes to a stream: as many of the first ones as a buffer holds, and a writer that is left alone once it has failed.
#![tactic(auto)]

ghost use Rattle.std.specs.Prelude.{◌≡◌, ◌≤◌, [], None, length, take};
ghost use Rattle.std.specs.Io.KnownBytes.{Consumes};
ghost use Rattle.streams.specs.believed.Sent.{Sent, outcome_of};

use std::io;
use std::io::{Read, Write};

// A writer, and the first error that it gave; nothing is written behind an error.
#[derive(Drop)]
pub struct Sink<W> {
    pub writer: W,
    pub failed: Option<io::Error>,
}

impl<W: Write> Sink<W> {
    // Nothing has failed yet.
    pub fn new(writer: W) -> Sink<W>
        ensures held { result.writer ≡ writer }
        ensures failed { result.failed ≡ None }
    {
        Sink {
            writer,
            failed: None,
        }
    }

    // Writes all of the bytes, if nothing has failed before.
    pub fn put(&mut self, bytes: &[u8])
        ensures { Sent W.contents self.old self.new bytes.now }
    {
        if self.failed.is_none() {
            self.failed = self.writer.write_all(bytes).err();
        }
    }

    // The error, if there was one.
    pub fn outcome(&self) -> io::Result<()>
        ensures { result ≡ outcome_of self.now.failed }
    {
        self.failed.map_or(Ok(()), Err)
    }
}

// Reads until the buffer is full, the stream ends or a read fails; answers how many bytes it has put at the buffer's start.
// Where the stream says which bytes it has left, those are the first of them, and no others are taken.
pub fn read_full<R: Read>(stream: &mut R, buf: &mut [u8]) -> usize
    ensures count { result ≤ length buf.new }
    ensures bytes { Consumes (R.remaining stream.old) (R.remaining stream.new) (take result buf.new) }
{
    let mut done: usize = 0;
    while done < buf.len() {
        match stream.read(&mut buf[done..]) {
            Ok(0) | Err(_) => break,
            Ok(n) => done += n,
        }
    }
    done
}
