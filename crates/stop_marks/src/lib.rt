// The service stop marks, over the two files as bytes.
#![tactic(auto)]

ghost use Rattle.std.specs.Prelude.{◌≡◌};
ghost use Rattle.service.specs.believed.Given.{outcome_said};
ghost use Rattle.stop_marks.specs.believed.StopMarks.{marks_due};

use refusal::Refusal;
use service::Contents;

// Writes n + 1 bytes: byte i is 1 where the first i tokens alone have a reading, else 0.
pub fn stop_marks(grammar: &[u8], history: &[u8], marks: &mut [u8]) -> Result<(), Refusal>
    ensures { (outcome_said result, marks.new) ≡ marks_due grammar.now history.now marks.old }
{
    let mut contents = Contents::new();
    let opened = service::open_files(grammar, history, 1, marks.len(), &mut contents)?;
    stop_marks_core::marks(&opened.grammar, opened.tokens, marks);
    Ok(())
}
