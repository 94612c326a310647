//! An answer: what is stored and said, and the status that goes with it.
ghost use Rattle.std.specs.Prelude.{◌≡◌, IfOk, MatchOption};
ghost use Rattle.emp_command.specs.Course.{refusal};
ghost use Rattle.emp_outcomes.specs.Steps.{outcome_of};

use emp_command::delivery::Stored;
use emp_command::line::Line;
use emp_list::memory::NoMemory;

/// The status that goes with what is to be stored and said; a fault line is said alone.
#[derive(Drop)]
pub enum Answer {
    Said(u8, Vec<Stored>, Vec<u8>),
    Refusal(u8, Line),
}

/// The refusal with this line, where there is one; want of memory has none.
pub fn refused(status: u8, line: Option<Line>) -> Result<Answer, NoMemory>
    ensures { IfOk result (λ a. MatchOption line ⊥ (λ l. outcome_of a ≡ refusal status l.items)) }
{
    match line {
        Some(line) => Ok(Answer::Refusal(status, line)),
        None => Err(NoMemory),
    }
}
