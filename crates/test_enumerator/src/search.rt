// The search for readings, in which a path has a byte for each position: the number of the rule there.
ghost use Rattle.std.specs.Prelude.{◌≡◌, ◌+◌, ◌≤◌, length};

use crate::written::{Right, Rule, Token};

// What a search comes to: the path is a reading, there is no further one, or the limit of turns was reached.
#[derive(Clone, Copy, PartialEq, Eq)]
pub enum Found {
    Reading,
    NoReading,
    GaveUp,
}

// How many positions are filled, and the first rule to try at the next one.
#[derive(Clone, Copy)]
struct Turn {
    filled: usize,
    from: u8,
}

const TURNS: u32 = 4000000;

// The start and the rules of a grammar, and the tokens that readings are sought of.
#[derive(Clone, Copy)]
pub struct Search<'a> {
    pub start: u32,
    pub rules: &'a [Rule],
    pub tokens: &'a [Token],
}

// The number behind the one at p.
fn rule_after(path: &[u8], p: usize) -> u8 {
    path.get(p).map_or(1, |rule| rule.wrapping_add(1))
}

impl Search<'_> {
    // The rule that the path has at p.
    fn rule_at(&self, path: &[u8], p: usize) -> Option<Rule> {
        let number = path.get(p)?;
        self.rules.get(usize::from(*number)).copied()
    }

    // The position of the innermost step that is open at p.
    fn open_before(&self, p: usize) -> Option<usize>
        requires { p ≤ length self.now.tokens.now }
    {
        let mut closed: usize = 0;
        for i in (0..p).rev() {
            match self.tokens[i] {
                Token::Close(_) => closed += 1,
                Token::Open(_) if closed == 0 => return Some(i),
                Token::Open(_) => closed -= 1,
                _ => {}
            }
        }
        None
    }

    // What the rule at the open of that step makes.
    fn open_step(&self, path: &[u8], p: usize) -> Option<Right>
        requires { p ≤ length self.now.tokens.now }
    {
        let open = self.open_before(p)?;
        Some(self.rule_at(path, open)?.right)
    }

    // The stage that makes the tokens from p on, as far as their level goes.
    fn stage_at(&self, path: &[u8], p: usize) -> Option<u32>
        requires { p ≤ length self.now.tokens.now }
    {
        let Some(before) = p.checked_sub(1) else {
            return Some(self.start);
        };
        if let Token::Close(_) = self.tokens[before] {
            return match self.open_step(path, before)? {
                Right::Step { behind, .. } => Some(behind),
                _ => None,
            };
        }
        match self.rule_at(path, before)?.right {
            Right::Mark { behind, .. } => Some(behind),
            Right::Step { inside, .. } => Some(inside),
            _ => None,
        }
    }

    // Whether the close ends the innermost step that is open at p.
    fn closes(&self, path: &[u8], p: usize, name: u32) -> bool
        requires { p ≤ length self.now.tokens.now }
    {
        match self.open_step(path, p) {
            Some(Right::Step { close, .. }) => close == name,
            _ => false,
        }
    }

    // Whether the rule makes the token at p, or ends the path there. A close is made by the rule at its open, and the rule ends the inside.
    fn makes(&self, path: &[u8], p: usize, rule: Rule) -> bool
        requires { p ≤ length self.now.tokens.now }
    {
        match (self.tokens.get(p), rule.right) {
            (Some(Token::Mark(name)), Right::Mark { mark, .. }) => *name == mark,
            (Some(Token::Open(name)), Right::Step { open, .. }) => *name == open,
            (Some(Token::Close(name)), Right::End) => self.closes(path, p, *name),
            (None, Right::End) => self.open_before(p).is_none(),
            _ => false,
        }
    }

    // The least rule from one on that fits at p, after the rules that the path has before p. Of more rules than a byte counts the first 255 are tried.
    fn least(&self, path: &[u8], p: usize, from: u8) -> Option<u8>
        requires { p ≤ length self.now.tokens.now }
    {
        let stage = self.stage_at(path, p)?;
        for number in from..self.rules.len().min(255) as u8 {
            let rule = self.rules[usize::from(number)];
            if rule.left == stage && self.makes(path, p, rule) {
                return Some(number);
            }
        }
        None
    }

    // Fills the next position, or goes back to the one before; None where all has been tried.
    fn turned(&self, path: &mut [u8], turn: Turn) -> Option<Turn>
        requires { turn.filled ≤ length self.now.tokens.now }
        ensures { length path.new ≡ length path.old }
    {
        let p = turn.filled;
        if let Some(rule) = self.least(path, p, turn.from) {
            if p < path.len() {
                path[p] = rule;
            }
            return Some(Turn {
                filled: p + 1,
                from: 0,
            });
        }
        let filled = p.checked_sub(1)?;
        let from = rule_after(path, filled);
        Some(Turn { filled, from })
    }

    // Takes turns till every position is filled or all has been tried.
    fn search(&self, path: &mut [u8], start: Turn) -> Found
        ensures { length path.new ≡ length path.old }
    {
        let n = self.tokens.len();
        let mut turn = start;
        for _ in 0..TURNS {
            if n < turn.filled {
                break;
            }
            let Some(next) = self.turned(path, turn) else {
                return Found::NoReading;
            };
            turn = next;
        }
        if n < turn.filled {
            Found::Reading
        } else {
            Found::GaveUp
        }
    }

    // Writes the first reading; the path has a byte for each position.
    pub fn first(&self, path: &mut [u8]) -> Found
        ensures { length path.new ≡ length path.old }
    {
        self.search(path, Turn { filled: 0, from: 0 })
    }

    // Overwrites the reading by the next one.
    pub fn next(&self, path: &mut [u8]) -> Found
        ensures { length path.new ≡ length path.old }
    {
        let filled = self.tokens.len();
        let from = rule_after(path, filled);
        self.search(path, Turn { filled, from })
    }
}
