// Reading a script to its end, and running each of its lines.
use crate::run::Bench;
use script::line::Line;
use std::io;
use std::io::{Read, Stdin};

// How many bytes are read at once, at most.
const CHUNK: usize = 65536;

// The longest line that is told.
const LONGEST_LINE: usize = 300000;

// Where a script is read from, and the line that its reading came to.
#[derive(Drop)]
pub struct Script {
    from: Stdin,
    line: Line<LONGEST_LINE>,
    // The line's number.
    number: u64,
}

impl Script {
    pub fn new(from: Stdin) -> Self {
        Script {
            from,
            line: Line::new(),
            number: 1,
        }
    }

    // Runs the line, and goes on to the next.
    fn end_line(&mut self, bench: &mut Bench) {
        match self.line.text() {
            Some(text) => bench.run(text, self.number),
            None => bench.refuse_long(self.number),
        }
        self.line.clear();
        self.number = self.number.wrapping_add(1);
    }

    // Runs the lines that end in a chunk, and keeps what stands behind the last of them.
    fn feed(&mut self, chunk: &[u8], bench: &mut Bench) {
        let mut rest = chunk;
        while let Some(behind) = self.line.take(rest) {
            self.end_line(bench);
            rest = behind;
        }
    }

    // Reads to the input's end. A proved loop has to end, and nothing says that an input does: the turns are as many as no run uses up.
    fn read(&mut self, bench: &mut Bench) -> io::Result<()> {
        let mut chunk = [0u8; CHUNK];
        for _ in 0..u64::MAX {
            let count = self.from.read(&mut chunk)?;
            if count == 0 {
                break;
            }
            self.feed(&chunk[..count], bench);
        }
        Ok(())
    }

    // Runs each line. The last one may lack its end, and a failure of a read counts as the input's end.
    pub fn run(self, bench: &mut Bench) -> io::Result<()> {
        let mut script = self;
        let read = script.read(bench);
        if !script.line.is_empty() {
            script.end_line(bench);
        }
        read
    }
}
