// The refusals: what is wrong with a file or a call, each by one of document 01's numbers.
#![tactic(auto)]

ghost use Rattle.std.specs.Prelude.{◌≡◌};
ghost use Rattle.refusal.specs.believed.Refusal.{number};

// In the order of their numbers, which are 1 to 18 (docs/refusals.tsv): 1 to 14 are of the files, the others of a call.
#[derive(Clone, Copy, Debug, PartialEq, Eq)]
pub enum Refusal {
    Truncated = 1,
    NotShortest = 2,
    StageCount = 3,
    RuleCount = 4,
    Form = 5,
    Stage = 6,
    Name = 7,
    RepeatedRule = 8,
    BytesFollow = 9,
    TokenCount = 10,
    TokenNumber = 11,
    CloseWithoutOpen = 12,
    StepOpen = 13,
    TooDeep = 14,
    ShortBuffer = 15,
    NotAReading = 16,
    NoStep = 17,
    NoSuchReading = 18,
}

// Document 01's number of the refusal.
impl From<Refusal> for u8 {
    ghost from_gives = { λ refusal result. result ≡ number refusal };

    fn from(refusal: Refusal) -> u8 {
        refusal as u8
    }
}
