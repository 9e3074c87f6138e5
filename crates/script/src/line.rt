// Lines of a script: cutting them from what is read, and telling those that are skipped.
ghost use Rattle.std.specs.Prelude.{◌≡◌, ◌≢◌, ◌+◌, ◌<◌, ◌++◌, slice_index, EachIndex, ◌∷◌, List, ℕ, [], cond, length, Option, IfSome, IfNone, MatchOption, IsTrue, ◌↔◌, Some, None};
ghost use Rattle.script.specs.Lines.{with_part};

use arrayvec::ArrayVec;
use std::marker::Model;

// What is there of a line.
#[derive(Drop)]
pub struct Line<const ROOM: usize> {
    text: ArrayVec<u8, ROOM>,
    // Whether it is longer than its room: a flag beside it and no Option, so that the room isn't made anew for each line.
    too_long: bool,
}

// Clauses see its bytes, and none where it is longer than its room.
impl<const ROOM: usize> Model for Line<ROOM> {
    ghost Value = { Option (List ℕ) };

    ghost view = { λ line. cond line.too_long None (Some line.text.items) };
}

impl<const ROOM: usize> Line<ROOM> {
    pub fn new() -> Self
        ensures { result ≡ Some [] }
    {
        Line {
            text: ArrayVec::new(),
            too_long: false,
        }
    }

    fn put(&mut self, part: &[u8])
        ensures { self.new ≡ with_part ROOM self.old part.now }
    {
        if self.text.try_extend_from_slice(part).is_err() {
            self.too_long = true;
        }
    }

    // Takes bytes of a chunk up to a line's end, and answers what stands behind that, if it is there.
    pub fn take<'c>(&mut self, chunk: &'c [u8]) -> Option<&'c [u8]>
        ensures behind { IfSome result (λ rest. length rest.now < length chunk.now) }
        ensures ended { IfSome result (λ rest. (part : List ℕ) × (chunk.now ≡ part ++ 10 ∷ rest.now) × (self.new ≡ with_part ROOM self.old part)) }
        ensures first { IfSome result (λ rest. (k : ℕ) → k + length rest.now + 1 < length chunk.now → slice_index chunk.now k ≢ 10) }
        ensures none { IfNone result (EachIndex chunk.now (λ k. slice_index chunk.now k ≢ 10)) }
        ensures not_ended { IfNone result (self.new ≡ with_part ROOM self.old chunk.now) }
    {
        let Some(at) = chunk.iter().position(|byte| *byte == b'\n') else {
            self.put(chunk);
            return None;
        };
        self.put(&chunk[..at]);
        Some(&chunk[at + 1..])
    }

    pub fn is_empty(&self) -> bool
        ensures { IsTrue result ↔ (self.now ≡ Some []) }
    {
        self.text.is_empty() && !self.too_long
    }

    // Its bytes, if they fit its room.
    pub fn text(&self) -> Option<&[u8]>
        ensures { MatchOption result (self.now ≡ None) (λ text. self.now ≡ Some text.now) }
    {
        if self.too_long {
            return None;
        }
        Some(self.text.as_slice())
    }

    // Before the next line.
    pub fn clear(&mut self)
        ensures { self.new ≡ Some [] }
    {
        self.text.clear();
        self.too_long = false;
    }
}

// Whether nothing is written for a line: it is blank, or a comment.
pub fn is_skipped(line: &[u8]) -> bool {
    line.starts_with(b"#") || line.iter().all(|byte| *byte == b' ')
}
