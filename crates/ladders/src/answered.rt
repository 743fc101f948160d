// How an answer is printed.
ghost use Rattle.std.specs.Prelude.{Some};
ghost use Rattle.ladders.specs.Answered.{answered_text};

use market::refusal::Refusal;
use std::fmt;

#[derive(Drop)]
pub struct Answered(pub Result<(), Refusal>);

impl fmt::Display for Answered {
    ghost output = { λ a. Some (answered_text a) };

    fn fmt<W: fmt::Write>(&self, f: &mut fmt::Formatter<W>) -> fmt::Result {
        match self.0 {
            Ok(()) => write!(f, "(ok)"),
            Err(why) => write!(f, "{why}"),
        }
    }
}
