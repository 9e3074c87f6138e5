// Filling a read. Document 01, "Moves", paragraph "Fill"; refusals 8, 12, 1, 3, 9 and 11 of "When the box says no".
// Costs one walk for the judge; then for each block of bytes before r one pass over the held writes, and for each byte a search over those that
// touch its block, newest first.
#![tactic(auto)]

ghost use Rattle.std.specs.Prelude.{◌≡◌, [], List, ◌+◌, ◌≤◌, ◌<◌, length, replicate, reverse, ltb};
ghost use Rattle.std.specs.List.{list_any, find};
ghost use Rattle.std.specs.Option.{option_map};
ghost use Rattle.layout.specs.Sizes.{most_entries, file_end};
ghost use Rattle.layout.specs.Bytes.{both, round};
ghost use Rattle.walk.specs.Walk.{Write, unreadable};
ghost use Rattle.state.specs.Pins.{has_pin_for};
ghost use Rattle.rules.specs.Call.{fill_read};
ghost use Rattle.rules.specs.Fill.{writes_by, fill_count, filled};
ghost use Rattle.rules.specs.Refusals.{own};
ghost use Rattle.rules.specs.Known.{Known};
ghost use Rattle.rules.specs.Outcome.{outcome, lent_by, may_of};
ghost use Rattle.fill.specs.Answers.{said_fill};
ghost use Rattle.fill.specs.Overlay.{is_named, is_over, is_near, overlaid};

use arrayvec::ArrayVec;
use judge::Judged;
use layout::{Ring, Slots};
use reason::Reason;
use state::{Held, Pin, State};
use std::marker::Model;
use walk::ENTRIES;

// The longest buffer of a fill.
pub const LONGEST: usize = 65536;

// So many bytes are laid over at a time: 512 was quicker than 256 and 128. No byte depends on it.
const BLOCK: usize = 512;

// ---- the refusals behind 8 and 12

// Whether a pin has that number and is for that very node.
#[tactic(auto, using(std::proofs::lemmas::Bool::Decides::nat_tests), unfolding(layout::specs::Bytes::both))]
fn is_named(pin: Pin, number: u64, node: u32) -> bool
    ensures { result ≡ is_named number node pin }
{
    pin.number == number && pin.node == node
}

// Whether any pin has that number and is for that very node.
fn any_named(pins: &[Pin], number: u64, node: u32) -> bool
    ensures { result ≡ list_any (is_named number node) pins.now }
{
    pins.iter().any(|pin| is_named(*pin, number, node))
}

// Whether there is a live pin of that number for that very node.
#[tactic(auto, using(state::proofs::Library::any_list, std::proofs::lemmas::Bool::Decides::nat_tests), unfolding(layout::specs::Bytes::both))]
fn is_pinned(pins: &[Pin], number: u64, node: u32) -> bool
    ensures { result ≡ both (ltb 0 number) (has_pin_for number node pins.now) }
{
    number != 0 && any_named(pins, number, node)
}

// A fill's own refusals, in the order.
#[tactic(auto, using(crate::proofs::Refusing::may_node, crate::proofs::Refusing::may_end, crate::proofs::Refusing::may_pin, crate::proofs::Refusing::may_short, crate::proofs::Refusing::may_long, crate::proofs::Refusing::may_go))]
fn may_fill(
    s: &State,
    pin: u64,
    node: u32,
    offset: u32,
    fetched: usize,
    buffer: &[u8],
) -> Result<(), Reason>
    ensures { result ≡ may_of (own (fill_read pin node offset fetched buffer.now) [] unreadable s.now) }
{
    let n = buffer.len();
    if node == 0 {
        return Err(Reason::NodeZero);
    }
    if (Ring::FILE_END as usize) < n || Ring::FILE_END - (n as u32) < offset {
        return Err(Reason::PastFileEnd);
    }
    if !is_pinned(&s.pins, pin, node) {
        return Err(Reason::NoSuchPin);
    }
    if n < fetched || LONGEST < n {
        return Err(Reason::BadBuffer);
    }
    Ok(())
}

// ---- the bytes

// Whether a write is the node's and covers a place of its file.
#[tactic(auto, using(std::proofs::lemmas::Bool::Decides::nat_tests), unfolding(layout::specs::Bytes::both, shore::specs::Cover::spans))]
fn is_over(held: Held, node: u32, p: usize) -> bool
    ensures { result ≡ is_over node p held }
{
    let entry = held.entry;
    let start = entry.offset as usize;
    let stop = start + entry.length as usize;
    entry.node == node && start <= p && p < stop
}

// The newest of the writes that are the node's and cover a place of its file. They stand oldest first, so the search goes from the back, as document 01
// has it: from the newest write to the oldest, up to the first that covers the place.
fn newest_over(held: &[Held], node: u32, p: usize) -> Option<&Held>
    ensures { option_map (λ y. y.now) result ≡ find (is_over node p) (reverse held.now) }
{
    held.iter().rev().find(|one| is_over(**one, node, p))
}

// Whether a write is the node's and touches its file from a place up to an end.
#[tactic(auto, using(std::proofs::lemmas::Bool::Decides::nat_tests), unfolding(layout::specs::Bytes::both))]
fn is_near(held: Held, node: u32, from: usize, end: usize) -> bool
    ensures { result ≡ is_near node from end held }
{
    let entry = held.entry;
    let start = entry.offset as usize;
    let stop = start + entry.length as usize;
    entry.node == node && start < end && from < stop
}

// A node's writes among those that a ring holds, oldest first, to be laid over bytes of its file: contracts see the list of them.
#[derive(Drop)]
struct Layer<'a> {
    slots: Slots<'a>,
    held: &'a [Held],
    node: u32,
}

impl<'a> Model for Layer<'a> {
    ghost Value = { List Write };

    ghost view = { λ l. writes_by l.node (round l.slots.bytes.now l.slots.n) l.held.now };

    ghost invariant = { λ l. length l.held.now ≤ most_entries };
}

impl<'a> Layer<'a> {
    // Lays the writes over bytes of the file, which stand in it from a place on. Each byte is that of the newest write that covers it, else
    // as it was. Document 01 has it so: a loop over the bytes, in it a search from the newest write back, which stops at the one that covers the byte.
    // A part and where it begins come apart here and below: the part is lent on in pieces, and a struct of both would be made anew for each.
    #[tactic(auto, using(crate::proofs::Overlaying::lay_start, crate::proofs::Seeking::newest_inside))]
    fn overlay(&self, from: usize, out: &mut [u8])
        requires { from + length out.old ≤ file_end }
        ensures { out.new ≡ overlaid self.now from out.old }
    {
        for (k, byte) in out.iter_mut().enumerate() {
            let p = from + k;
            if let Some(one) = newest_over(self.held, self.node, p) {
                let entry = one.entry;
                *byte = walk::entry_byte(&self.slots, entry, p - entry.offset as usize);
            }
        }
    }

    // The same as `overlay`: the writes that touch the part are chosen first, into room that is lent, and only those are searched for its bytes.
    // Most parts have none.
    fn overlay_near(&self, near: &mut ArrayVec<Held, ENTRIES>, from: usize, part: &mut [u8])
        requires { from + length part.old ≤ file_end }
        ensures { part.new ≡ overlaid self.now from part.old }
    {
        let end = from + part.len();
        near.clear();
        for one in self.held {
            if is_near(*one, self.node, from, end) {
                near.push(*one);
            }
        }
        if !near.is_empty() {
            let layer = Layer {
                held: near.as_slice(),
                ..*self
            };
            layer.overlay(from, part);
        }
    }

    // The same, block by block.
    #[tactic(auto, using(crate::proofs::Overlaying::lay_start, crate::proofs::Overlaying::lay_part, crate::proofs::Overlaying::lay_done))]
    fn overlay_blocks(&self, from: usize, out: &mut [u8])
        requires { from + length out.old ≤ file_end }
        ensures { out.new ≡ overlaid self.now from out.old }
    {
        let mut near = ArrayVec::new();
        let n = out.len();
        for k in (0..n).step_by(BLOCK) {
            self.overlay_near(&mut near, from + k, &mut out[k..n.min(k + BLOCK)]);
        }
    }

    // The bytes behind those that were fetched: zero where no write covers them.
    fn zero_and_overlay(&self, from: usize, part: &mut [u8])
        requires { from + length part.old ≤ file_end }
        ensures { part.new ≡ overlaid self.now from (replicate (length part.old) 0) }
    {
        part.fill(0);
        self.overlay_blocks(from, part);
    }

    // The bytes before r: those before g over what was fetched, those behind g over zeros.
    #[tactic(auto, using(crate::proofs::Overlaying::parts_back))]
    fn fill_bytes(&self, from: usize, g: usize, r: usize, buffer: &mut [u8])
        requires { (g ≤ r) × (r ≤ length buffer.old) × (from + length buffer.old ≤ file_end) }
        ensures { buffer.new ≡ filled self.now from g r buffer.old }
    {
        self.overlay_blocks(from, &mut buffer[0..g]);
        self.zero_and_overlay(from + g, &mut buffer[g..r]);
    }
}

// The count r: the greater of g and min(n, E - offset).
fn count_of(n: usize, g: usize, offset: u32, end: u64) -> usize
    requires { g ≤ n }
    ensures { (result ≡ fill_count n g offset end) × (g ≤ result) × (result ≤ n) }
{
    let reach = end.saturating_sub(u64::from(offset)) as usize;
    g.max(n.min(reach))
}

// ---- the call

// Fills a read, on a ring and a state that passed the judge. What is asked comes place by place, as the host's call has it and `fill_read` takes it:
// a struct of it would be made in `fill` and taken apart in each contract.
fn fill_known<'a>(
    bytes: &'a [u8],
    s: &State,
    judged: &'a Judged,
    pin: u64,
    node: u32,
    offset: u32,
    fetched: usize,
    buffer: &mut [u8],
) -> Result<usize, Reason>
    requires { Known bytes.now s.now judged.now }
    ensures { lent_by (said_fill result) s.now bytes.now buffer.new ≡ outcome (fill_read pin node offset fetched buffer.old) bytes.now s.now }
{
    may_fill(s, pin, node, offset, fetched, buffer)?;
    let n = buffer.len();
    let held = judged.held.as_slice();
    let end = state::end_of(held, node);
    let r = count_of(n, fetched, offset, end);
    let slots = Slots {
        bytes,
        n: judged.ring.n,
    };
    let layer = Layer { slots, held, node };
    layer.fill_bytes(offset as usize, fetched, r, buffer);
    Ok(r)
}

// Fills a read: lays what is held over what was fetched.
#[tactic(auto, using(rules::proofs::Judging::known, rules::proofs::Judging::judge_refuses, crate::proofs::Filling::judges_fill))]
pub fn fill(
    bytes: &[u8],
    s: &State,
    pin: u64,
    node: u32,
    offset: u32,
    fetched: usize,
    buffer: &mut [u8],
) -> Result<usize, Reason>
    ensures { lent_by (said_fill result) s.now bytes.now buffer.new ≡ outcome (fill_read pin node offset fetched buffer.old) bytes.now s.now }
{
    let judged = judge::judge(bytes, s)?;
    fill_known(bytes, s, &judged, pin, node, offset, fetched, buffer)
}
