// What stands behind write, unpin and report, on a ring and a state that passed the judge.
// Document 01, "Moves" and "When the box says no".
// Only our own crates call it: the callers show that the judge has let the call pass. Each promise is the call's own
// equation with `outcome`.
// A write copies its slots once, the others store one byte; nothing here walks the ring.
// `Known` joins the ring's bytes, the state and what the judge found. They have three owners, so no one type holds it.
#![tactic(auto)]

ghost use Rattle.std.specs.Prelude.{◌≡◌, ◌∷◌, [], ◌++◌, map, true, ◌+◌, ◌≤◌, ◌<◌, length};
ghost use Rattle.layout.specs.Sizes.{most_entries, number_limit};
ghost use Rattle.layout.specs.Bytes.{Sized};
ghost use Rattle.layout.specs.Rack.{items};
ghost use Rattle.walk.specs.Walk.{readable, slots_used};
ghost use Rattle.store.specs.Store.{head_moved};
ghost use Rattle.ring.specs.Ring.{slot_after};
ghost use Rattle.state.specs.Lists.{all, phase_fits, entry_of, unflushed, with_next, with_held};
ghost use Rattle.state.specs.Pins.{staying, slots_left};
ghost use Rattle.rules.specs.Refusals.{own};
ghost use Rattle.rules.specs.Call.{write, unpin, report};
ghost use Rattle.rules.specs.Outcome.{outcome, outcome_by, may_of};
ghost use Rattle.rules.specs.Known.{Known};
ghost use Rattle.change.specs.Answers.{said_number, said_done};

use judge::Judged;
use layout::Ring;
use layout::rack::Rack;
use reason::Reason;
use state::{Event, Held, Pin, State, UNFLUSHED};
use walk::{ENTRIES, Entry};

// Lets the writes that are due leave from the head; the head byte moves on past their slots.
fn let_go(bytes: &mut [u8], s: &mut State, ring: Ring, held: &[Held])
    requires sized { Sized bytes.old ring.n }
    requires head_lt_n { (ring.head < ring.n) × (length held.now ≤ most_entries) × all phase_fits held.now ≡ true }
    requires held_bound { slots_used (map entry_of held.now) ≤ most_entries }
    ensures state { s.new ≡ with_held s.old (staying s.old.pins held.now) }
    ensures bytes { bytes.new ≡ head_moved bytes.old (slot_after ring (slots_left s.old.pins held.now)) }
{
    let leaving = state::leave(held, &s.pins);
    store::move_head(bytes, (ring.head + leaving.slots) % ring.n);
    s.relist(&held[leaving.count..]);
}

// Unpins, on a ring and a state that passed the judge.
pub fn unpin_known(
    bytes: &mut [u8],
    s: &mut State,
    judged: &Judged,
    number: u64,
) -> Result<(), Reason>
    requires { Known bytes.old s.old judged.now }
    ensures { outcome_by (said_done result) s.new bytes.new ≡ outcome (unpin number) bytes.old s.old }
{
    if number == 0 {
        return Err(Reason::NoSuchPin);
    }
    let Some(place) = state::find_pin(&s.pins, number) else {
        return Err(Reason::NoSuchPin);
    };
    s.pins[place] = Pin::default();
    let_go(bytes, s, judged.ring, judged.held.as_slice());
    Ok(())
}

// Reports a flush, on a ring and a state that passed the judge.
pub fn report_known(
    bytes: &mut [u8],
    s: &mut State,
    judged: Judged,
    number: u64,
    good: bool,
) -> Result<(), Reason>
    requires { Known bytes.old s.old judged }
    ensures { outcome_by (said_done result) s.new bytes.new ≡ outcome (report number good) bytes.old s.old }
{
    if s.flush == 0 {
        return Err(Reason::NotTheFlush);
    }
    if number != s.flush {
        return Err(Reason::NotTheFlush);
    }
    s.flush = 0;
    let mut held = judged.held;
    if good {
        held.change(|items| state::report_all(items, Event::Good));
        let_go(bytes, s, judged.ring, held.as_slice());
    } else {
        held.change(|items| state::report_all(items, Event::Bad));
        s.relist(held.as_slice());
    }
    Ok(())
}

// A write's own refusals, in the order.
#[tactic(auto, using(crate::proofs::Writing::may_node, crate::proofs::Writing::may_empty, crate::proofs::Writing::may_long, crate::proofs::Writing::may_end, crate::proofs::Writing::may_number, crate::proofs::Writing::may_room, crate::proofs::Writing::may_go))]
fn may_write(s: &State, ring: Ring, node: u32, offset: u32, src: &[u8]) -> Result<(), Reason>
    requires { ring.used < ring.n }
    ensures { result ≡ may_of (own (write node 0 offset src.now) [] (readable ring []) s.now) }
{
    let length = src.len();
    if node == 0 {
        return Err(Reason::NodeZero);
    }
    if length == 0 {
        return Err(Reason::BadLength);
    }
    if (Ring::LARGEST as usize) < length {
        return Err(Reason::BadLength);
    }
    if Ring::FILE_END - (length as u32) < offset {
        return Err(Reason::PastFileEnd);
    }
    if s.next == Ring::NUMBERS {
        return Err(Reason::NoNumber);
    }
    if ring.n - 1 - ring.used < Ring::slots(length as u32) {
        return Err(Reason::NoRoom);
    }
    Ok(())
}

// Lists one write more, which takes the next number.
fn add_write(s: &mut State, mut held: Rack<Held, ENTRIES>, entry: Entry)
    requires { (length (items held) < most_entries) × (s.old.next < number_limit) }
    ensures { s.new ≡ with_next (with_held s.old (items held ++ record { entry = entry; phase = unflushed } ∷ [])) (s.old.next + 1) }
{
    held.push(Held {
        entry,
        phase: UNFLUSHED,
    });
    s.relist(held.as_slice());
    s.next += 1;
}

// Writes, on a ring and a state that passed the judge.
pub fn write_known(
    bytes: &mut [u8],
    s: &mut State,
    judged: Judged,
    node: u32,
    handle: u32,
    offset: u32,
    src: &[u8],
) -> Result<u64, Reason>
    requires { Known bytes.old s.old judged }
    ensures { outcome_by (said_number result) s.new bytes.new ≡ outcome (write node handle offset src.now) bytes.old s.old }
{
    let ring = judged.ring;
    may_write(s, ring, node, offset, src)?;
    let number = s.next;
    let entry = Entry {
        number,
        node,
        handle,
        offset,
        length: src.len() as u32,
        zero: 0,
        slot: ((ring.head + ring.used) % ring.n) as u32,
    };
    store::store(bytes, ring.n, entry, src);
    add_write(s, judged.held, entry);
    Ok(number)
}
