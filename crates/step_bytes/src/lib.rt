// The bytes of one step: the part of a history file from an open's first byte through its close's last byte (document 02, 2.1).
// One search for the place of the part; two services, one that hands the part back and one that says why there is none.
#![tactic(auto)]

ghost use Rattle.std.specs.Prelude.{◌≡◌, ◌&&◌, ◌+◌, ◌≤◌, eqb, ltb, length, get_or, Ok};
ghost use Rattle.std.proofs.Math.Option.{some};
ghost use Rattle.numbers.specs.Written.{written};
ghost use Rattle.refusal.specs.Numbered.{numbered};
ghost use Rattle.history_file.specs.believed.HistoryFile.{kind, depth_after};
ghost use Rattle.step_bytes.specs.believed.StepBytes.{step_length, part_from, step_in, step_of, bytes_in, start_in, number_in, number_said, within};
ghost use Rattle.step_bytes.specs.Places.{ended, placed};

use refusal::Refusal;

// Where a part of a file starts, and how many bytes it has.
#[derive(Clone, Copy, Debug, PartialEq, Eq)]
pub struct Part {
    pub start: usize,
    pub length: usize,
}

// How many steps are open after a token, whatever token it is.
#[tactic(auto, unfolding(history_file::specs::believed::HistoryFile::depth_after))]
fn steps_open(t: u32, depth: u32) -> u32
    requires { depth ≤ 1024 }
    ensures { result ≡ depth_after t depth }
{
    match t % 4 {
        1 => depth + 1,
        2 => depth.saturating_sub(1),
        _ => depth,
    }
}

// How many tokens there are from an open through the close that ends its step: the first token after which no step is open.
fn step_end(tokens: &[u32]) -> Option<usize>
    requires { length tokens.now ≤ 1024 }
    ensures { result ≡ ended (step_length 0 tokens.now) }
{
    let mut depth = 0;
    for i in 0..tokens.len() {
        depth = steps_open(tokens[i], depth);
        if depth == 0 {
            return Some(i + 1);
        }
    }
    None
}

// How many bytes the tokens take in a file.
fn bytes_of(tokens: &[u32]) -> usize
    requires { length tokens.now ≤ 1024 }
    ensures { (result ≡ length (written tokens.now)) × (result ≤ 4096) }
{
    tokens.iter().map(|&t| numbers::size_of(t)).sum()
}

// Whether an open stands at the position. Its kind is taken out of the number, since any number may stand there.
fn is_open(tokens: &[u32], position: usize) -> bool
    ensures { result ≡ (ltb position (length tokens.now) && eqb (kind (get_or tokens.now position 0)) 1) }
{
    position < tokens.len() && tokens[position] % 4 == 1
}

// The place of so many tokens from a position on.
fn part_at(tokens: &[u32], position: usize, count: usize) -> Part
    requires { (length tokens.now ≤ 1024) × (position + count ≤ length tokens.now) }
    ensures { Ok result ≡ placed (part_from tokens.now position (some count)) }
{
    let behind = position + count;
    let first = numbers::size_of(tokens.len() as u32);
    let before = bytes_of(&tokens[..position]);
    Part {
        start: first + before,
        length: bytes_of(&tokens[position..behind]),
    }
}

// The place of the step at a position, where the history has passed.
fn place_in(tokens: &[u32], position: usize) -> Result<Part, Refusal>
    requires { length tokens.now ≤ 1024 }
    ensures { numbered result ≡ placed (step_in tokens.now position) }
{
    if !is_open(tokens, position) {
        return Err(Refusal::NoStep);
    }
    let count = step_end(&tokens[position..]).ok_or(Refusal::NoStep)?;
    Ok(part_at(tokens, position, count))
}

// The place of the step at a position of a history file.
pub fn locate(history: &[u8], position: usize) -> Result<Part, Refusal>
    ensures { numbered result ≡ placed (step_of history.now position) }
{
    let mut tokens = [0; 1024];
    let count = history_file::read_history(history, &mut tokens)?;
    place_in(&tokens[..count], position)
}

// The bytes of the step whose open stands at the position, as a part of the caller's own; where there is none, the empty part at their start.
pub fn step_bytes<'a>(history: &'a [u8], position: usize) -> &'a [u8]
    ensures { (result.now ≡ bytes_in (step_of history.now position)) × (result.ref_ptr ≡ within history.entry.ref_ptr (start_in (step_of history.now position))) }
{
    match locate(history, position) {
        Ok(part) => &history[part.start..part.start + part.length],
        Err(_) => &history[..0],
    }
}

// Whether there is a step at the position, or why the part is empty.
pub fn step_check(history: &[u8], position: usize) -> Result<(), Refusal>
    ensures { number_said result ≡ number_in (step_of history.now position) }
{
    locate(history, position)?;
    Ok(())
}
