// What a script works on, and running one line of it.
use arrayvec::ArrayVec;
use command::Command;
use looks::answer::{Answer, Refusal};
use looks::look;
use looks::output::Out;
use script::line;
use state::State;
use std::io;

// The longest ring and buffer, and the most bytes of a write.
pub const LONGEST: usize = 140000;

#[derive(Drop)]
pub struct Bench {
    pub ring: ArrayVec<u8, LONGEST>,
    pub buffer: ArrayVec<u8, LONGEST>,
    pub state: State,
    pub out: Out,
}

impl Bench {
    // Before the first line: no ring, no buffer, and a state of zeros.
    pub fn new(out: Out) -> Self {
        Bench {
            ring: ArrayVec::new(),
            buffer: ArrayVec::new(),
            state: State {
                next: 0,
                ..state::empty_state()
            },
            out,
        }
    }

    fn say_answer(&mut self, answer: Answer) {
        self.out.say(format_args!("{answer}\n"));
    }

    // Does what the line of that number asks for, and says what comes of it.
    fn obey(&mut self, line: &[u8], number: u64) -> Result<(), Refusal> {
        let answer = match command::command_of(line).ok_or(Refusal::NoCommand)? {
            Command::Call(call) => self.call(call)?,
            Command::Poke { place, byte } => self.poke(place, byte)?,
            Command::Set(setting) => self.set(setting)?,
            Command::Look(look) => {
                let ring = self.ring.as_slice();
                let buffer = self.buffer.as_slice();
                look::say_look_or_refusal(&mut self.out, number, look, ring, buffer, &self.state);
                return Ok(());
            }
        };
        self.say_answer(answer);
        Ok(())
    }

    // Runs the line of that number.
    pub fn run(&mut self, line: &[u8], number: u64) {
        if line::is_skipped(line) {
            return;
        }
        if let Err(why) = self.obey(line, number) {
            self.out.say_refusal(why, number);
        }
    }

    // A line that is longer than its room.
    pub fn refuse_long(&mut self, number: u64) {
        self.out.say(format_args!("? {number} too long\n"));
    }

    // Writes what still waits, and answers the first failure of a write.
    pub fn finish(self) -> io::Result<()> {
        self.out.finish()
    }
}
