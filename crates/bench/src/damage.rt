// What a script may damage: a byte of the ring, and each number of the state.
use crate::run::Bench;
use command::Setting;
use looks::answer::{Answer, Refusal};
use state::{Listed, Pin};

impl Bench {
    pub fn poke(&mut self, place: usize, byte: u8) -> Result<Answer, Refusal> {
        let ring = self.ring.as_mut_slice();
        *ring.get_mut(place).ok_or(Refusal::NoCommand)? = byte;
        Ok(Answer::Done)
    }

    fn listed(&mut self, place: usize) -> Result<&mut Listed, Refusal> {
        self.state.writes.get_mut(place).ok_or(Refusal::NoCommand)
    }

    fn pinned(&mut self, place: usize) -> Result<&mut Pin, Refusal> {
        self.state.pins.get_mut(place).ok_or(Refusal::NoCommand)
    }

    pub fn set(&mut self, setting: Setting) -> Result<Answer, Refusal> {
        match setting {
            Setting::Next(value) => self.state.next = value,
            Setting::Flush(value) => self.state.flush = value,
            Setting::Count(value) => self.state.count = value,
            Setting::Number { place, value } => self.listed(place)?.number = value,
            Setting::Phase { place, value } => self.listed(place)?.phase = value,
            Setting::Pin {
                place,
                number,
                mark,
                node,
            } => *self.pinned(place)? = Pin { number, mark, node },
        }
        Ok(Answer::Done)
    }
}
