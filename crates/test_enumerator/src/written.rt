// Reads the two files, of which it takes for granted that they pass the checks.
ghost use Rattle.std.specs.Prelude.{◌<◌, ◌≤◌, length};

// The bytes of a file that are still to be read; zeros stand behind them.
#[derive(Drop)]
struct Unread<'a> {
    bytes: &'a [u8],
}

impl Unread<'_> {
    fn byte(&mut self) -> u8 {
        match self.bytes.split_first() {
            None => 0,
            Some((first, rest)) => {
                self.bytes = rest;
                *first
            }
        }
    }

    // A number, in groups of seven bits, the lowest first.
    fn number(&mut self) -> u32 {
        let low = u32::from(self.byte());
        if low < 128 {
            return low;
        }
        let middle = u32::from(self.byte());
        if middle < 128 {
            return low - 128 + middle * 128;
        }
        low - 128 + (middle - 128) * 128 + u32::from(self.byte()) * 16384
    }

    fn rule(&mut self) -> Rule {
        let form = self.number();
        let left = self.number();
        let right = self.right_side(form);
        Rule { left, right }
    }

    // A form that no rule has counts as one with as many numbers as a step.
    fn right_side(&mut self, form: u32) -> Right {
        match form {
            0 => Right::End,
            1 => Right::Mark {
                mark: self.number(),
                behind: self.number(),
            },
            2 => self.step(),
            _ => {
                self.step();
                Right::Unknown
            }
        }
    }

    fn step(&mut self) -> Right {
        Right::Step {
            open: self.number(),
            inside: self.number(),
            close: self.number(),
            behind: self.number(),
        }
    }
}

// What a rule makes: nothing, a mark, or an open with its close. The other numbers are stages.
#[derive(Clone, Copy)]
pub enum Right {
    End,
    Mark {
        mark: u32,
        behind: u32,
    },
    Step {
        open: u32,
        inside: u32,
        close: u32,
        behind: u32,
    },
    Unknown,
}

// A rule, with the stage on its left.
#[derive(Clone, Copy)]
pub struct Rule {
    pub left: u32,
    pub right: Right,
}

// The start and the rules of a grammar.
#[derive(Clone, Copy)]
pub struct Grammar {
    pub start: u32,
    list: [Rule; 128],
    count: usize,
    ghost fits: { count ≤ 128 },
}

impl Grammar {
    // The start is stage 0 in a file that does not begin with a 0; there the rule count stands behind the stage count.
    pub fn read(file: &[u8]) -> Grammar
        ensures { result.start < 256 }
    {
        let mut unread = Unread { bytes: file };
        let mut start = 0;
        if unread.byte() == 0 {
            unread.byte();
            start = u32::from(unread.byte());
        }
        let count = (unread.number() as usize).min(128);
        let mut list = [Rule {
            left: 0,
            right: Right::End,
        }; 128];
        for rule in &mut list[..count] {
            *rule = unread.rule();
        }
        Grammar { start, list, count }
    }

    pub fn rules(&self) -> &[Rule]
        ensures { length result.now ≤ 128 }
    {
        &self.list[..self.count]
    }
}

// A token with its name.
#[derive(Clone, Copy)]
pub enum Token {
    Mark(u32),
    Open(u32),
    Close(u32),
    Unknown,
}

fn token_of(number: u32) -> Token {
    let name = number / 4;
    match number % 4 {
        0 => Token::Mark(name),
        1 => Token::Open(name),
        2 => Token::Close(name),
        _ => Token::Unknown,
    }
}

// The tokens of a history.
#[derive(Clone, Copy)]
pub struct History {
    list: [Token; 1024],
    count: usize,
    ghost fits: { count ≤ 1024 },
}

impl History {
    pub fn read(file: &[u8]) -> History
        ensures { result.count ≤ 1024 }
    {
        let mut unread = Unread { bytes: file };
        let count = (unread.number() as usize).min(1024);
        let mut list = [Token::Unknown; 1024];
        for token in &mut list[..count] {
            *token = token_of(unread.number());
        }
        History { list, count }
    }

    pub fn tokens(&self) -> &[Token]
        ensures { length result.now ≤ 1024 }
    {
        &self.list[..self.count]
    }
}
