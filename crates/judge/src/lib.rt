// The judge of a ring and a state: whether the ring is readable (8) and the state fits it (12), from one walk.
// Document 01, "When the box says no", last paragraph. Nothing here stores a byte.
#![tactic(auto)]

ghost use Rattle.std.specs.Prelude.{◌≡◌, true, false, not, ◌≤◌, ◌<◌, length, eqb};
ghost use Rattle.std.specs.List.{list_all, list_any, zip};
ghost use Rattle.layout.specs.Sizes.{most_entries};
ghost use Rattle.layout.specs.Bytes.{both};
ghost use Rattle.layout.specs.Rack.{items, IsTidy};
ghost use Rattle.walk.specs.Walk.{readable, reading_of};
ghost use Rattle.state.specs.Lists.{pick, all, pairs, holding, phase_fits, no_held};
ghost use Rattle.judge.specs.Fits.{listed_fits, is_in_flight, next_fits, pin_fits, pins_fit, phases_fit, pair_fits, head_stays, held_fits};
ghost use Rattle.judge.specs.Answers.{judged_of};

use layout::Ring;
use layout::rack::Rack;
use reason::Reason;
use state::{FLUSHED, GONE, Held, IN_FLIGHT, Listed, Pin, State, UNFLUSHED};
use walk::{ENTRIES, Entry, Walked};

// A ring that can be read, and whose state fits it, with the held writes, oldest first.
#[derive(Clone, Copy)]
pub struct Judged {
    pub ring: Ring,
    pub held: Rack<Held, ENTRIES>,
}

// Whether a listed write has the ring's number, below the next, and is Unflushed, In flight or Flushed.
#[tactic(auto, using(std::proofs::lemmas::Bool::Decides::nat_tests), unfolding(crate::specs::Fits::listed_fits, layout::specs::Bytes::both))]
fn one_fits(listed: Listed, number: u64, next: u64) -> bool
    ensures { result ≡ listed_fits next number listed }
{
    if listed.number != number {
        return false;
    }
    if next <= listed.number {
        return false;
    }
    if GONE <= listed.phase {
        return false;
    }
    true
}

// The entries beside their states.
fn hold(entries: &[Entry], writes: &[Listed]) -> Rack<Held, ENTRIES>
    requires { (length entries.now ≡ length writes.now) × (length entries.now ≤ most_entries) }
    ensures items { items result ≡ holding entries.now writes.now }
    ensures tidy { IsTidy no_held result }
{
    let mut held = Rack::new();
    for (entry, listed) in entries.iter().zip(writes) {
        held.push(Held {
            entry: *entry,
            phase: listed.phase,
        });
    }
    held
}

// Whether the listed writes are the ring's entries, in order.
fn list_fits(entries: &[Entry], writes: &[Listed], next: u64) -> bool
    requires { length entries.now ≡ length writes.now }
    ensures { result ≡ list_all (λ x. listed_fits next x.0.number x.1) (zip entries.now writes.now) }
{
    entries
        .iter()
        .zip(writes)
        .all(|(entry, listed)| one_fits(*listed, entry.number, next))
}

// Whether a pin's number is below the next, and none of those before it has it.
fn pin_fits(before: &[Pin], pin: Pin, next: u64) -> bool
    ensures { result ≡ pin_fits next before.now pin }
{
    if next <= pin.number {
        return false;
    }
    if pin.number == 0 {
        return true;
    }
    state::find_pin(before, pin.number).is_none()
}

// Whether all pins' numbers are below the next and differ.
fn pins_fit(pins: &[Pin], next: u64) -> bool
    ensures { result ≡ pins_fit next pins.now }
{
    for (i, pin) in pins.iter().enumerate() {
        if !pin_fits(&pins[..i], *pin, next) {
            return false;
        }
    }
    true
}

// Whether two states may stand in this order, in writes of one node.
#[tactic(auto, using(std::proofs::lemmas::Bool::Decides::nat_tests), unfolding(crate::specs::Fits::phases_fit, layout::specs::Bytes::both))]
fn phases_fit(earlier: u8, later: u8) -> bool
    ensures { result ≡ phases_fit earlier later }
{
    match later {
        FLUSHED => earlier == FLUSHED,
        IN_FLIGHT => earlier != UNFLUSHED,
        _ => true,
    }
}

// Whether a write may stand before a later one.
#[tactic(auto, using(std::proofs::lemmas::Bool::Decides::nat_tests), unfolding(crate::specs::Fits::pair_fits, crate::specs::Fits::nodes_fit, layout::specs::Bytes::both))]
fn pair_fits(earlier: &Held, later: &Held) -> bool
    ensures { result ≡ pair_fits earlier.now later.now }
{
    if earlier.entry.node == later.entry.node {
        return phases_fit(earlier.phase, later.phase);
    }
    earlier.phase != IN_FLIGHT || later.phase != IN_FLIGHT
}

// Whether all of those may stand before a later one.
fn all_fit(earlier: &[Held], later: &Held) -> bool
    ensures { result ≡ list_all (λ x. pair_fits x later.now) earlier.now }
{
    earlier.iter().all(|one| pair_fits(one, later))
}

// Whether a write may stand behind all of those. An Unflushed write may follow any, so most are passed at once.
fn follows(earlier: &[Held], later: &Held) -> bool
    ensures { result ≡ all (λ x. pair_fits x later.now) earlier.now }
{
    later.phase == UNFLUSHED || all_fit(earlier, later)
}

// Whether every write may stand before every later one.
fn order_fits(held: &[Held]) -> bool
    ensures { result ≡ pairs pair_fits held.now }
{
    for (j, later) in held.iter().enumerate() {
        if !follows(&held[..j], later) {
            return false;
        }
    }
    true
}

// Whether there are writes In flight exactly if there is a flush number.
fn flight_fits(flying: bool, flush: u64) -> bool
    ensures { result ≡ pick (eqb flush 0) (not flying) flying }
{
    flying == (flush != 0)
}

// Whether the head entry isn't due to leave.
fn head_stays(held: &[Held], pins: &[Pin]) -> bool
    requires { all phase_fits held.now ≡ true }
    ensures { result ≡ head_stays pins.now held.now }
{
    match held.first() {
        Some(head) => !state::is_due(pins, *head),
        None => true,
    }
}

// Whether any is In flight.
fn is_any_in_flight(held: &[Held]) -> bool
    ensures { result ≡ list_any is_in_flight held.now }
{
    held.iter().any(|one| one.phase == IN_FLIGHT)
}

// What is judged of the held writes: their order, the flush, and that the head entry stays.
fn held_fits(held: &[Held], s: &State) -> bool
    requires { all phase_fits held.now ≡ true }
    ensures { result ≡ held_fits s.now held.now }
{
    if !order_fits(held) {
        return false;
    }
    if !flight_fits(is_any_in_flight(held), s.flush) {
        return false;
    }
    head_stays(held, &s.pins)
}

// Whether the next number is in its bounds.
#[tactic(auto, using(std::proofs::lemmas::Bool::Decides::nat_tests), unfolding(crate::specs::Fits::next_fits, layout::specs::Bytes::both))]
fn next_fits(next: u64, flush: u64) -> bool
    ensures { result ≡ next_fits next flush }
{
    flush < next && next <= Ring::NUMBERS
}

// The judge of a ring that is readable: the entries are held beside their states, and then judged.
fn judge_walked(walked: &Walked, s: &State) -> Result<Judged, Reason>
    ensures { result ≡ judged_of (readable walked.now.ring (items walked.now.entries)) s.now }
{
    let entries = walked.entries.as_slice();
    if s.count != entries.len() {
        return Err(Reason::StateUnfit);
    }
    let writes = &s.writes[..s.count];
    if !list_fits(entries, writes, s.next) {
        return Err(Reason::StateUnfit);
    }
    let held = hold(entries, writes);
    if !next_fits(s.next, s.flush) {
        return Err(Reason::StateUnfit);
    }
    if !pins_fit(&s.pins, s.next) {
        return Err(Reason::StateUnfit);
    }
    if !held_fits(held.as_slice(), s) {
        return Err(Reason::StateUnfit);
    }
    Ok(Judged {
        ring: walked.ring,
        held,
    })
}

// 8 and 12, for any bytes and any state; the refusals are Unreadable and StateUnfit.
pub fn judge(bytes: &[u8], s: &State) -> Result<Judged, Reason>
    ensures { result ≡ judged_of (reading_of bytes.now) s.now }
{
    let walked = walk::read(bytes)?;
    judge_walked(&walked, s)
}
