// What a command answers, if that is one line of numbers, and why it may have no answer.
ghost use Rattle.std.specs.Prelude.{◌≡◌, Some};
ghost use Rattle.looks.specs.Said.{said};
ghost use Rattle.looks.specs.declared.answer.Refusal.TheVariants.{Refused};

use reason::Reason;
use std::fmt;

#[derive(Clone, Copy)]
pub enum Answer {
    Done,
    Number(u64),
    Pair(u64, u64),
    Nothing,
}

// Why a line has no answer.
#[derive(Clone, Copy)]
pub enum Refusal {
    // The library refused the call.
    Refused(Reason),
    // The line is no command.
    NoCommand,
}

impl fmt::Display for Answer {
    ghost output = { λ answer. Some (said answer) };

    fn fmt<W: fmt::Write>(&self, f: &mut fmt::Formatter<W>) -> fmt::Result {
        match self {
            Answer::Done => f.write_str("ok"),
            Answer::Number(x) => write!(f, "ok {x}"),
            Answer::Pair(x, y) => write!(f, "ok {x} {y}"),
            Answer::Nothing => f.write_str("nothing"),
        }
    }
}

impl From<Reason> for Refusal {
    ghost from_gives = { λ why refusal. refusal ≡ Refused why };

    fn from(why: Reason) -> Refusal {
        Refusal::Refused(why)
    }
}
