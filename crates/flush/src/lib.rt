// Starting a flush. Document 01, "Moves", paragraphs "Flush" and "Sheet"; refusals 8, 12, 1, 6, 5 and 11 of "When the box says no".
// Costs one walk for the judge, one pass over the held writes for the batch, the sheet, and one pass to list the writes.
#![tactic(auto)]

ghost use Rattle.std.specs.Prelude.{◌≡◌, map, ◌+◌, ◌≤◌, ◌<◌, length, ltb, Ok, Some};
ghost use Rattle.layout.specs.Sizes.{most_entries, number_limit};
ghost use Rattle.layout.specs.Bytes.{both};
ghost use Rattle.state.specs.Lists.{entry_of, with_next, with_flush, with_held};
ghost use Rattle.state.specs.Batch.{most_batch, is_waiting, batch_of, taken_of};
ghost use Rattle.rules.specs.Call.{start_flush};
ghost use Rattle.rules.specs.Outcome.{outcome, lent_by};
ghost use Rattle.rules.specs.Known.{Known};
ghost use Rattle.flush.specs.Answers.{said_start};

use arrayvec::ArrayVec;
use judge::Judged;
use layout::{Ring, Slots};
use reason::Reason;
use sheet::BATCH;
use state::{Event, Held, State, UNFLUSHED};
use walk::Entry;

// A flush that was started: its number, and the length of the sheet that stands in the buffer's front.
#[derive(Clone, Copy)]
pub struct Started {
    pub number: u64,
    pub length: usize,
}

// Whether a write joins a batch of so many.
#[tactic(auto, using(std::proofs::lemmas::Bool::Decides::nat_tests), unfolding(layout::specs::Bytes::both))]
fn joins(held: Held, node: u32, many: usize) -> bool
    ensures { result ≡ both (ltb many most_batch) (is_waiting node held) }
{
    let entry = held.entry;
    if BATCH <= many {
        return false;
    }
    if entry.node != node {
        return false;
    }
    held.phase == UNFLUSHED
}

// The node's oldest 32 Unflushed writes, or all if fewer, are taken: they are In flight. Answers their entries, oldest first.
fn take_batch(held: &mut [Held], node: u32) -> ArrayVec<Entry, BATCH>
    ensures held { held.new ≡ taken_of node held.old }
    ensures entries { result.items ≡ map entry_of (batch_of node held.old) }
{
    let mut entries = ArrayVec::new();
    for one in held.iter_mut() {
        if joins(*one, node, entries.len()) {
            entries.push(one.entry);
            one.phase = state::move_of(UNFLUSHED, Event::Taken);
        }
    }
    entries
}

// Lists those writes, and has a flush under way under the next number, with a sheet of that length.
fn begin(s: &mut State, held: &[Held], size: usize) -> Started
    requires { (length held.now ≤ most_entries) × (s.old.next < number_limit) }
    ensures state { s.new ≡ with_next (with_flush (with_held s.old held.now) s.old.next) (s.old.next + 1) }
    ensures started { result ≡ record { number = s.old.next; length = size } }
{
    let number = s.next;
    s.relist(held);
    s.flush = number;
    s.next = number + 1;
    Started {
        number,
        length: size,
    }
}

// Starts a flush, on a ring and a state that passed the judge.
fn start_known(
    bytes: &[u8],
    s: &mut State,
    judged: Judged,
    node: u32,
    buffer: &mut [u8],
) -> Result<Option<Started>, Reason>
    requires { Known bytes.now s.old judged }
    ensures { lent_by (said_start result) s.new bytes.now buffer.new ≡ outcome (start_flush node buffer.old) bytes.now s.old }
{
    if node == 0 {
        return Err(Reason::NodeZero);
    }
    if 0 < s.flush {
        return Err(Reason::FlushUnderWay);
    }
    let Judged { ring, mut held } = judged;
    let batch = held.change(|items| take_batch(items, node));
    if batch.is_empty() {
        return Ok(None);
    }
    if s.next == Ring::NUMBERS {
        return Err(Reason::NoNumber);
    }
    let slots = Slots { bytes, n: ring.n };
    let Some(length) = sheet::make_sheet(&slots, &batch, node, buffer) else {
        return Err(Reason::BadBuffer);
    };
    Ok(Some(begin(s, held.as_slice(), length)))
}

// Starts a flush of a node: writes the sheet of its oldest Unflushed writes to the buffer's front, for the host to send.
// Nothing to flush is an answer, and no refusal.
#[tactic(auto, using(rules::proofs::Judging::known, rules::proofs::Judging::judge_refuses, crate::proofs::Starting::judges_start))]
pub fn start(
    bytes: &[u8],
    s: &mut State,
    node: u32,
    buffer: &mut [u8],
) -> Result<Option<Started>, Reason>
    ensures { lent_by (said_start result) s.new bytes.now buffer.new ≡ outcome (start_flush node buffer.old) bytes.now s.old }
{
    let judged = judge::judge(bytes, s)?;
    start_known(bytes, s, judged, node, buffer)
}
