// The lines of a listing, written to a buffer; a full buffer goes out as a piece of the text.
#![tactic(auto)]

use std::io::Write;
use std::mem;
use streams::Sink;

// How many bytes of the text went out before those in the buffer, and where in the buffer the next one goes.
#[derive(Clone, Copy)]
pub struct Cursor {
    pub before: usize,
    pub at: usize,
}

// A text on its way out: the buffer, the place in it, and the sink that a full buffer is handed to.
pub struct Text<'a, W> {
    pub out: &'a mut [u8],
    pub cursor: Cursor,
    pub sink: &'a mut Sink<W>,
}

impl<'a, W: Write> Text<'a, W> {
    ghost use Rattle.std.specs.Prelude.{◌≡◌, [], ◌∷◌, ◌++◌, length};
    ghost use Rattle.streams.specs.believed.Sent.{Sent};
    ghost use Rattle.lines.specs.Laid.{at_start, behind_full};
    ghost use Rattle.lines.specs.Lays.{Lays};
    ghost use Rattle.lines.specs.believed.Text.{decimal, reading_text, number_line, tokens_line, choices_line, none_line, reading_line, end_line, more_line, refused_grammar_line, refused_history_line};

    // Before the first byte of the text.
    pub fn new(out: &'a mut [u8], sink: &'a mut Sink<W>) -> Text<'a, W>
        ensures { result ≡ record { out = out.entry; cursor = at_start; sink = sink.entry } }
    {
        Text {
            out,
            cursor: Cursor { before: 0, at: 0 },
            sink,
        }
    }

    // Hands a full buffer to the sink; the next byte goes to its start.
    fn piece_out(&mut self)
        ensures place { self.new.cursor ≡ behind_full self.old.cursor.before (length self.old.out.now) }
        ensures sent { Sent W.contents self.old.sink.now self.new.sink.now self.old.out.now }
        ensures same_out { self.new.out ≡ self.old.out }
        ensures same_sink { self.new.sink.ghost_name ≡ self.old.sink.ghost_name }
    {
        // taken out for the call: no proof is made of a body that lends two `&mut` fields at once
        let out = mem::take(&mut self.out);
        self.sink.put(out);
        self.out = out;
        self.cursor = Cursor {
            before: self.cursor.before.wrapping_add(self.out.len()),
            at: 0,
        };
    }

    // One byte, where there is room for any.
    #[tactic(auto, unfolding(crate::specs::Laid::laid, crate::specs::Laid::gone))]
    pub fn put_byte(&mut self, b: u8)
        ensures { Lays W.contents self.old self.new (b ∷ []) }
    {
        let at = self.cursor.at;
        if at < self.out.len() {
            self.out[at] = b;
            self.cursor.at = at + 1;
            if at + 1 == self.out.len() {
                self.piece_out();
            }
        }
    }

    pub fn put_bytes(&mut self, bytes: &[u8])
        ensures { Lays W.contents self.old self.new bytes.now }
    {
        for &b in bytes {
            self.put_byte(b);
        }
    }

    // A number in decimal, by recursion: `write!` promises nothing of the text where it fails.
    pub fn put_number(&mut self, n: usize)
        ensures { Lays W.contents self.old self.new (decimal n) }
    {
        if 10 <= n {
            self.put_number(n / 10);
        }
        self.put_byte(b'0' + (n % 10) as u8);
    }

    // A word, a number and the line's end.
    fn number_line(&mut self, word: &[u8], n: usize)
        ensures { Lays W.contents self.old self.new (number_line word.now n) }
    {
        self.put_bytes(word);
        self.put_number(n);
        self.put_byte(b'\n');
    }

    // How many tokens the history has.
    pub fn tokens_line(&mut self, n: usize)
        ensures { Lays W.contents self.old self.new (tokens_line n) }
    {
        self.number_line(b"tokens ", n);
    }

    // How many positions are choices.
    pub fn choices_line(&mut self, count: usize)
        ensures { Lays W.contents self.old self.new (choices_line count) }
    {
        self.number_line(b"choices ", count);
    }

    // There is no reading.
    pub fn none_line(&mut self)
        ensures { Lays W.contents self.old self.new none_line }
    {
        self.put_bytes(b"none\n");
    }

    // All k readings were listed.
    pub fn end_line(&mut self, k: usize)
        ensures { Lays W.contents self.old self.new (end_line k) }
    {
        self.number_line(b"end ", k);
    }

    // k readings were listed, and another follows.
    pub fn more_line(&mut self, k: usize)
        ensures { Lays W.contents self.old self.new (more_line k) }
    {
        self.number_line(b"more ", k);
    }

    // The grammar file is refused by the number k.
    pub fn refused_grammar_line(&mut self, k: usize)
        ensures { Lays W.contents self.old self.new (refused_grammar_line k) }
    {
        self.number_line(b"refused grammar ", k);
    }

    // The history file is refused by the number k.
    pub fn refused_history_line(&mut self, k: usize)
        ensures { Lays W.contents self.old self.new (refused_history_line k) }
    {
        self.number_line(b"refused history ", k);
    }

    // The rule numbers of a reading, each with a blank before it.
    fn put_rules(&mut self, reading: &[u8])
        ensures { Lays W.contents self.old self.new (reading_text reading.now) }
    {
        for &rule in reading {
            self.put_byte(b' ');
            self.put_number(usize::from(rule));
        }
    }

    // The reading number k.
    pub fn reading_line(&mut self, k: usize, reading: &[u8])
        ensures { Lays W.contents self.old self.new (reading_line k reading.now) }
    {
        self.put_number(k);
        self.put_byte(b':');
        self.put_rules(reading);
        self.put_byte(b'\n');
    }
}
