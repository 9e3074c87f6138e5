// The calls of the library, as a script makes them.
use crate::run::{Bench, LONGEST};
use arrayvec::ArrayVec;
use command::{Call, FillCall, WriteCall};
use looks::answer::{Answer, Refusal};

// What a fresh ring or buffer holds.
const BLANK: u8 = 0xAA;

// Puts so many blank bytes in the place of those that were there, if there is room.
fn renew(bytes: &mut ArrayVec<u8, LONGEST>, length: usize) -> Result<(), Refusal> {
    let blank = [BLANK; LONGEST];
    let fresh = blank.get(..length).ok_or(Refusal::NoCommand)?;
    bytes.clear();
    bytes
        .try_extend_from_slice(fresh)
        .map_err(|_| Refusal::NoCommand)
}

impl Bench {
    // ---- the calls that want bytes laid first

    fn make(&mut self, length: usize) -> Result<Answer, Refusal> {
        renew(&mut self.ring, length)?;
        calls::make(self.ring.as_mut_slice(), &mut self.state)?;
        Ok(Answer::Done)
    }

    fn write(&mut self, call: WriteCall<'_>) -> Result<Answer, Refusal> {
        let mut room = [0u8; LONGEST];
        let src = room
            .get_mut(..call.bytes.count())
            .ok_or(Refusal::NoCommand)?;
        call.bytes.lay(src);
        let number = calls::write(
            self.ring.as_mut_slice(),
            &mut self.state,
            call.node,
            call.handle,
            call.offset,
            src,
        )?;
        Ok(Answer::Number(number))
    }

    fn fill(&mut self, call: FillCall<'_>) -> Result<Answer, Refusal> {
        renew(&mut self.buffer, call.length)?;
        let buffer = self.buffer.as_mut_slice();
        let front = buffer
            .get_mut(..call.bytes.count())
            .ok_or(Refusal::NoCommand)?;
        call.bytes.lay(front);
        let count = fill::fill(
            self.ring.as_slice(),
            &self.state,
            call.pin,
            call.node,
            call.offset,
            call.fetched,
            buffer,
        )?;
        Ok(Answer::Number(count as u64))
    }

    fn flush(&mut self, node: u32, length: usize) -> Result<Answer, Refusal> {
        renew(&mut self.buffer, length)?;
        let started = flush::start(
            self.ring.as_slice(),
            &mut self.state,
            node,
            self.buffer.as_mut_slice(),
        )?;
        match started {
            Some(started) => Ok(Answer::Pair(started.number, started.length as u64)),
            None => Ok(Answer::Nothing),
        }
    }

    // ---- the calls that change no byte but the ring's

    fn reopen(&mut self) -> Result<Answer, Refusal> {
        let number = calls::reopen(self.ring.as_slice(), &mut self.state)?;
        Ok(Answer::Number(number))
    }

    fn pin(&mut self, node: u32) -> Result<Answer, Refusal> {
        let number = calls::pin(self.ring.as_slice(), &mut self.state, node)?;
        Ok(Answer::Number(number))
    }

    fn unpin(&mut self, number: u64) -> Result<Answer, Refusal> {
        calls::unpin(self.ring.as_mut_slice(), &mut self.state, number)?;
        Ok(Answer::Done)
    }

    fn report(&mut self, number: u64, good: bool) -> Result<Answer, Refusal> {
        calls::report(self.ring.as_mut_slice(), &mut self.state, number, good)?;
        Ok(Answer::Done)
    }

    fn ticket(&mut self) -> Result<Answer, Refusal> {
        let number = calls::take_ticket(self.ring.as_slice(), &mut self.state)?;
        Ok(Answer::Number(number))
    }

    fn end(&self, node: u32) -> Result<Answer, Refusal> {
        let end = calls::cached_end(self.ring.as_slice(), &self.state, node)?;
        Ok(Answer::Number(end))
    }

    fn ask(&self, number: u64, node: u32) -> Result<Answer, Refusal> {
        let done = calls::ask_ticket(self.ring.as_slice(), &self.state, number, node)?;
        Ok(Answer::Number(u64::from(done)))
    }

    fn turn(&self) -> Result<Answer, Refusal> {
        let node = calls::whose_turn(self.ring.as_slice(), &self.state)?;
        Ok(Answer::Number(u64::from(node)))
    }

    // Makes a call. A length above what there is makes it no command.
    pub fn call(&mut self, call: Call<'_>) -> Result<Answer, Refusal> {
        match call {
            Call::Make { length } => self.make(length),
            Call::Reopen => self.reopen(),
            Call::Write(call) => self.write(call),
            Call::Pin { node } => self.pin(node),
            Call::Unpin { number } => self.unpin(number),
            Call::Fill(call) => self.fill(call),
            Call::End { node } => self.end(node),
            Call::Flush { node, length } => self.flush(node, length),
            Call::Report { number, good } => self.report(number, good),
            Call::Ticket => self.ticket(),
            Call::Ask { number, node } => self.ask(number, node),
            Call::Turn => self.turn(),
        }
    }
}
