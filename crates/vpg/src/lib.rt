// The symbols and rules of a visibly pushdown grammar. Definitions and theorems about them stand in specs/ and proofs/.
#![tactic(auto)]

// Names of marks, opens and closes: three separate alphabets (document 01, "Tokens, stages, rules"), each compared within itself only.
#[derive(Clone, Copy, PartialEq, Eq)]
pub struct MarkName(pub u16);

#[derive(Clone, Copy, PartialEq, Eq)]
pub struct OpenName(pub u16);

#[derive(Clone, Copy, PartialEq, Eq)]
pub struct CloseName(pub u16);

// A terminal: document 01's mark, open and close are the plain, call and return symbols of the field.
#[derive(Clone, Copy, PartialEq, Eq)]
pub enum Token {
    Mark(MarkName),
    Open(OpenName),
    Close(CloseName),
}

// A rule for the nonterminal that comes first: the forms (1), (2) and (3) of the paper's Definition 2.2. Form (2) takes one token alone: a mark
// is document 01's form 1; an open or a close, which no file can hold yet, is a pending one.
#[derive(Clone, Copy, PartialEq, Eq)]
pub enum Rule {
    Empty(u16),
    Next(u16, Token, u16),
    Step(u16, OpenName, u16, CloseName, u16),
}
