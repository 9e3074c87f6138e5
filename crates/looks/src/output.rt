// What the program writes. It waits in a room of fixed size, and is written when that has no room left, and at the end.
ghost use Rattle.std.specs.Prelude.{◌<◌};

use crate::answer::Refusal;
use arrayvec::ArrayVec;
use reason::Reason;
use std::fmt::Write as _;
use std::io::{Stdout, Write};
use std::{fmt, io};

// How many bytes may wait.
const ROOM: usize = 65536;

// How many bytes are spelled at once.
const PART: usize = 64;

// The bytes that wait, and where they go.
#[derive(Drop)]
pub struct Out {
    to: Stdout,
    // The first failure of a write. The program runs on, and ends with it.
    failed: io::Result<()>,
    waiting: ArrayVec<u8, ROOM>,
}

fn digit_of(value: u8) -> u8
    requires { value < 16 }
{
    if value < 10 {
        b'0' + value
    } else {
        b'A' + (value - 10)
    }
}

// A byte's two digits, in upper case.
fn digits_of(byte: u8) -> [u8; 2] {
    [digit_of(byte / 16), digit_of(byte % 16)]
}

impl Out {
    // Before anything waits.
    pub fn new(to: Stdout) -> Self {
        Out {
            to,
            failed: Ok(()),
            waiting: ArrayVec::new(),
        }
    }

    // Writes what waits. A failed write loses it.
    fn send(&mut self) {
        let said = self.to.write_all(self.waiting.as_slice());
        self.waiting.clear();
        if self.failed.is_ok() {
            self.failed = said;
        }
    }

    // Puts bytes behind those that wait, which are written first where the room is too short.
    fn put(&mut self, bytes: &[u8]) -> fmt::Result {
        if self.waiting.try_extend_from_slice(bytes).is_ok() {
            return Ok(());
        }
        self.send();
        self.waiting
            .try_extend_from_slice(bytes)
            .map_err(|_| fmt::Error)
    }

    // Takes what is to be written. No piece of it is longer than the room, so nothing is lost here.
    pub fn say<D: fmt::Display + Drop>(&mut self, what: D) {
        let _ = self.write(what);
    }

    // Bytes as the script spells them, many at once: by the formatter, each for itself, they take ten times as long.
    pub fn say_bytes(&mut self, bytes: &[u8]) {
        if bytes.is_empty() {
            self.say("-");
        }
        for part in bytes.chunks(PART) {
            let mut digits = [0; 2 * PART];
            for (two, byte) in digits.chunks_exact_mut(2).zip(part) {
                two.copy_from_slice(&digits_of(*byte));
            }
            let _ = self.put(&digits[..digits.len().min(2 * part.len())]);
        }
    }

    pub fn say_refused(&mut self, why: Reason) {
        self.say(format_args!("refused {}\n", reason::number_of(why)));
    }

    // Says why the line of that number has no answer.
    pub fn say_refusal(&mut self, why: Refusal, line: u64) {
        match why {
            Refusal::Refused(why) => self.say_refused(why),
            Refusal::NoCommand => self.say(format_args!("? {line}\n")),
        }
    }

    // Whether this text waits, and nothing else.
    #[cfg(test)]
    pub(crate) fn has_said(&self, text: &str) -> bool {
        self.waiting.as_slice() == text.as_bytes()
    }

    // Writes what still waits, and answers the first failure.
    pub fn finish(self) -> io::Result<()> {
        let mut out = self;
        out.send();
        out.failed
    }
}

impl fmt::Write for Out {
    fn write_str(&mut self, text: &str) -> fmt::Result {
        self.put(text.as_bytes())
    }
}
