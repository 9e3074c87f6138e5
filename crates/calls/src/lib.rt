// The public calls but the two with a lent buffer. Document 01, "What the box's cache does", "Moves" and "When the box says no".
// Each takes the ring's bytes and the state, whatever they are, and answers; its promise is one equation with `outcome`, which settles what is
// said, the state and every byte. Each judges ring and state by one walk.
#![tactic(auto)]

ghost use Rattle.std.specs.Prelude.{◌≡◌};
ghost use Rattle.rules.specs.Call.{make_ring, reopen_ring, write, pin, unpin, ask_end, report, take_ticket, ask_ticket, ask_turn};
ghost use Rattle.rules.specs.Outcome.{outcome, outcome_by};
ghost use Rattle.change.specs.Answers.{said_number, said_done};
ghost use Rattle.calls.specs.Answers.{said_end, said_ticket, said_turn};

use layout::Ring;
use reason::Reason;
use state::{Pin, State};

// Takes a ticket: a number, for asking later what has been flushed.
#[tactic(auto, using(rules::proofs::Judging::judge_refuses, crate::proofs::Plain::judges_ticket, crate::proofs::Plain::ticket_none, crate::proofs::Plain::ticket_done_law, crate::proofs::Plain::next_limit))]
pub fn take_ticket(bytes: &[u8], s: &mut State) -> Result<u64, Reason>
    ensures { outcome_by (said_number result) s.new bytes.now ≡ outcome take_ticket bytes.now s.old }
{
    judge::judge(bytes, s)?;
    let ticket = s.next;
    if ticket == Ring::NUMBERS {
        return Err(Reason::NoNumber);
    }
    s.next = ticket + 1;
    Ok(ticket)
}

// Whether every write in reach that was accepted before a ticket has been flushed, or has left.
#[tactic(auto, using(rules::proofs::Judging::judge_refuses, crate::proofs::Plain::judges_ask, crate::proofs::Plain::ask_done, crate::proofs::Plain::phases))]
pub fn ask_ticket(bytes: &[u8], s: &State, ticket: u64, node: u32) -> Result<bool, Reason>
    ensures { outcome_by (said_ticket result) s.now bytes.now ≡ outcome (ask_ticket ticket node) bytes.now s.now }
{
    let judged = judge::judge(bytes, s)?;
    Ok(state::is_done(judged.held.as_slice(), ticket, node))
}

// The node of the lowest-numbered Unflushed write, or 0, as the paper and C have it. With an Option `None` and `Some(0)` would be said alike, and `turn_unique`
// would not hold.
#[tactic(auto, using(rules::proofs::Judging::judge_refuses, crate::proofs::Plain::judges_turn, crate::proofs::Plain::turn_done, crate::proofs::Plain::limit))]
pub fn whose_turn(bytes: &[u8], s: &State) -> Result<u32, Reason>
    ensures { outcome_by (said_turn result) s.now bytes.now ≡ outcome ask_turn bytes.now s.now }
{
    let judged = judge::judge(bytes, s)?;
    Ok(state::turn_of(judged.held.as_slice()))
}

// The end that a node's file has at least, once its writes are laid on.
#[tactic(auto, using(rules::proofs::Judging::judge_refuses, crate::proofs::Plain::judges_end, crate::proofs::Plain::end_zero, crate::proofs::Plain::end_done))]
pub fn cached_end(bytes: &[u8], s: &State, node: u32) -> Result<u64, Reason>
    ensures { outcome_by (said_end result) s.now bytes.now ≡ outcome (ask_end node) bytes.now s.now }
{
    let judged = judge::judge(bytes, s)?;
    if node == 0 {
        return Err(Reason::NodeZero);
    }
    Ok(state::end_of(judged.held.as_slice(), node))
}

// Pins a node, or all: what is in reach stays in the ring until unpinned, from the mark on.
#[tactic(auto, using(rules::proofs::Judging::judge_refuses, crate::proofs::Plain::judges_pin, crate::proofs::Plain::pin_full, crate::proofs::Plain::pin_number, crate::proofs::Plain::pin_done_law, crate::proofs::Plain::below, crate::proofs::Plain::phases, crate::proofs::Plain::next_limit))]
pub fn pin(bytes: &[u8], s: &mut State, node: u32) -> Result<u64, Reason>
    ensures { outcome_by (said_number result) s.new bytes.now ≡ outcome (pin node) bytes.now s.old }
{
    let judged = judge::judge(bytes, s)?;
    let Some(place) = state::find_pin(&s.pins, 0) else {
        return Err(Reason::TooManyPins);
    };
    let number = s.next;
    if number == Ring::NUMBERS {
        return Err(Reason::NoNumber);
    }
    let mark = state::mark_of(judged.held.as_slice(), node, number);
    s.pins[place] = Pin { number, mark, node };
    s.next = number + 1;
    Ok(number)
}

// Ends a pin; what it alone kept leaves.
#[tactic(auto, using(rules::proofs::Judging::known, rules::proofs::Judging::judge_refuses, change::proofs::Changing::judges_unpin))]
pub fn unpin(bytes: &mut [u8], s: &mut State, number: u64) -> Result<(), Reason>
    ensures { outcome_by (said_done result) s.new bytes.new ≡ outcome (unpin number) bytes.old s.old }
{
    let judged = judge::judge(bytes, s)?;
    change::unpin_known(bytes, s, &judged, number)
}

// Tells how the flush under way went: good, the whole sheet landed; bad, any of its bytes may have.
#[tactic(auto, using(rules::proofs::Judging::known, rules::proofs::Judging::judge_refuses, change::proofs::Changing::judges_report))]
pub fn report(bytes: &mut [u8], s: &mut State, number: u64, good: bool) -> Result<(), Reason>
    ensures { outcome_by (said_done result) s.new bytes.new ≡ outcome (report number good) bytes.old s.old }
{
    let judged = judge::judge(bytes, s)?;
    change::report_known(bytes, s, judged, number, good)
}

// The state of a ring as it is reopened: every entry Unflushed.
#[tactic(auto, using(crate::proofs::Opening::walked, crate::proofs::Opening::reopen_refused, crate::proofs::Opening::reopen_done))]
pub fn reopen(bytes: &[u8], s: &mut State) -> Result<u64, Reason>
    ensures { outcome_by (said_number result) s.new bytes.now ≡ outcome reopen_ring bytes.now s.old }
{
    let walked = walk::read(bytes)?;
    *s = state::reopen_state(walked.entries.as_slice());
    Ok(s.next)
}

// Makes an empty ring of the buffer, and its state.
#[tactic(auto, using(crate::proofs::Opening::make_refused, crate::proofs::Opening::make_done))]
pub fn make(bytes: &mut [u8], s: &mut State) -> Result<(), Reason>
    ensures { outcome_by (said_done result) s.new bytes.new ≡ outcome make_ring bytes.old s.old }
{
    store::make(bytes)?;
    *s = state::empty_state();
    Ok(())
}

// Keeps a write in the ring, to be flushed later.
#[tactic(auto, using(rules::proofs::Judging::known, rules::proofs::Judging::judge_refuses, change::proofs::Changing::judges_write))]
pub fn write(
    bytes: &mut [u8],
    s: &mut State,
    node: u32,
    handle: u32,
    offset: u32,
    src: &[u8],
) -> Result<u64, Reason>
    ensures { outcome_by (said_number result) s.new bytes.new ≡ outcome (write node handle offset src.now) bytes.old s.old }
{
    let judged = judge::judge(bytes, s)?;
    change::write_known(bytes, s, judged, node, handle, offset, src)
}
