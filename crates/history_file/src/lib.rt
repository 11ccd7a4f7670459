// Reads a history file: the token numbers, or the number of the first fault in file order.
#![tactic(auto)]

ghost use Rattle.std.specs.Prelude.{◌≡◌, [], ◌≤◌, ◌<◌, ◌/◌, ◌%◌, replicate, OnOk};
ghost use Rattle.refusal.specs.Numbered.{numbered};
ghost use Rattle.numbers.specs.believed.Number.{number_at, bytes};
ghost use Rattle.history_file.specs.believed.HistoryFile.{token_with, token_of, token_judged, token_at, depth_after, tokens_from, history_of};
ghost use Rattle.history_file.specs.HistoryTokens.{history_read};

use numbers::Read;
use refusal::Refusal;
use vpg::{CloseName, MarkName, OpenName, Token};

// At most this many tokens (refusal 10), and this many steps open together (refusal 14).
const TOKENS: u32 = 1024;

const OPEN_STEPS: u32 = 128;

// Token numbers are below this, so that names are below 65,536 (refusal 11).
const TOKEN_NUMBERS: u32 = 262144;

// The token of a kind and a name.
#[tactic(auto, unfolding(crate::specs::believed::HistoryFile::token_with))]
pub fn token_with(kind: u32, name: u16) -> Token
    ensures { result ≡ token_with kind name }
{
    match kind {
        0 => Token::Mark(MarkName(name)),
        1 => Token::Open(OpenName(name)),
        _ => Token::Close(CloseName(name)),
    }
}

// The name in a token number: the one place where it is taken out, with all its bits.
pub fn name_of(t: u32) -> u16
    requires { t < 262144 }
    ensures { result ≡ t / 4 }
{
    (t / 4) as u16
}

// The token of a number.
#[tactic(auto, unfolding(crate::specs::believed::HistoryFile::token_of))]
pub fn token_of(t: u32) -> Token
    requires { t < 262144 }
    ensures { result ≡ token_of t }
{
    token_with(t % 4, name_of(t))
}

// The token numbers of a history; at most 1,024.
pub type TokenNumbers = [u32; 1024];

// A token number that was read, with so many steps open before it.
#[tactic(auto, unfolding(crate::specs::believed::HistoryFile::token_judged))]
fn token_judged(t: u32, next: usize, depth: u32) -> Read<u32>
    requires { depth ≤ 128 }
    ensures { result ≡ token_judged t next depth }
{
    if TOKEN_NUMBERS <= t {
        return Err(Refusal::TokenNumber);
    }
    let kind = t % 4;
    if kind == 3 {
        return Err(Refusal::TokenNumber);
    }
    // One number of both, for tests that nearly never hold: a branch by kind cost more where histories vary (docs/SPEED.md).
    let state = 4 * depth + kind;
    if state == 2 {
        return Err(Refusal::CloseWithoutOpen);
    }
    if state == 4 * OPEN_STEPS + 1 {
        return Err(Refusal::TooDeep);
    }
    Ok((t, next))
}

#[tactic(auto, unfolding(crate::specs::believed::HistoryFile::token_at))]
fn token_at(s: &[u8], at: usize, depth: u32) -> Read<u32>
    requires { depth ≤ 128 }
    ensures { result ≡ token_at (number_at s.now) at depth }
{
    let (t, next) = numbers::number_at(s, at)?;
    token_judged(t, next, depth)
}

// How many steps are open after a token that was let through.
#[tactic(auto, unfolding(crate::specs::believed::HistoryFile::depth_after))]
fn depth_after(t: u32, depth: u32) -> u32
    requires { (depth ≤ 128) × (t % 4 < 3) × (t % 4 ≡ 2 → 0 < depth) }
    ensures { result ≡ depth_after t depth }
{
    let kind = t % 4;
    // A sum, since a branch by kind cost more where histories vary (docs/SPEED.md).
    depth + kind % 2 - kind / 2
}

// The tokens that are due, from a place to the end, into zeros; where the file is refused, some may stand there.
#[tactic(auto, unfolding(crate::specs::believed::HistoryFile::tokens_from))]
fn tokens_at(s: &[u8], from: usize, due: usize, tokens: &mut TokenNumbers) -> Result<usize, Refusal>
    requires { (due ≤ 1024) × (tokens.old ≡ replicate 1024 0) }
    ensures told { numbered result ≡ (history_read (tokens_from (bytes s.now) due from 0 [])).0 }
    ensures filled { OnOk result (tokens.new ≡ (history_read (tokens_from (bytes s.now) due from 0 [])).1) }
{
    let mut at = from;
    let mut depth: u32 = 0;
    for k in 0..due {
        let (t, next) = token_at(s, at, depth)?;
        tokens[k] = t;
        depth = depth_after(t, depth);
        at = next;
    }
    if 0 < depth {
        return Err(Refusal::StepOpen);
    }
    if at < s.len() {
        return Err(Refusal::BytesFollow);
    }
    Ok(due)
}

// Reads the file into zeros that the caller lends, which stay behind the tokens; a refused file leaves zeros.
#[tactic(auto, unfolding(crate::specs::believed::HistoryFile::history_from))]
pub fn read_history(s: &[u8], tokens: &mut TokenNumbers) -> Result<usize, Refusal>
    requires { tokens.old ≡ replicate 1024 0 }
    ensures { (numbered result, tokens.new) ≡ history_read (history_of s.now) }
{
    let (due, at) = numbers::field_at(s, 0, TOKENS + 1, Refusal::TokenCount)?;
    let answer = tokens_at(s, at, due as usize, tokens);
    if answer.is_err() {
        *tokens = [0; 1024];
    }
    answer
}
