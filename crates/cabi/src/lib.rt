// The calls for a host in C: each takes its arguments apart, hands them on, and flattens the answer to numbers. Nothing is decided here.
// The state goes in and comes out by value, as the plain struct of `include/vibetorch.h`. A ring or a buffer is a pointer and a length.
// Document 01, "What the box's cache does".
#![tactic(auto)]

ghost use Rattle.std.specs.Prelude.{◌≡◌, ℕ, List, [], ◌∷◌};
ghost use Rattle.rules.specs.Call.{make_ring, reopen_ring, write, pin, unpin, ask_end, report, take_ticket, ask_ticket, ask_turn, start_flush, fill_read};
ghost use Rattle.rules.specs.Outcome.{outcome, says, said_by, bit};
ghost use Rattle.flush.specs.Answers.{values_of};
ghost use Rattle.cabi.specs.Flat.{flat, changed_by};

use flush::Started;
use reason::Reason;
use state::State;

// The refusal's number, 0 for none; the value, 0 for none; the length of a flush sheet, 0 for none. Plain numbers, since C has no Result.
#[repr(C)]
#[derive(Clone, Copy)]
pub struct Answer {
    pub refusal: u32,
    pub value: u64,
    pub length: u64,
}

#[repr(C)]
#[derive(Clone, Copy)]
pub struct Changed {
    pub state: State,
    pub answer: Answer,
}

fn value(value: u64) -> Answer
    ensures { result ≡ record { refusal = 0; value = value; length = 0 } }
{
    Answer {
        refusal: 0,
        value,
        length: 0,
    }
}

// What a call that isn't refused answers with.
trait Told {
    // what it says on paper
    ghost values: { Self → List ℕ };

    fn told(self) -> Answer
        ensures { result ≡ flat (says (values self)) };
}

// A number: of a write, a pin or a ticket, the next number, or an end.
impl Told for u64 {
    ghost values = { λ n. n ∷ [] };

    fn told(self) -> Answer {
        value(self)
    }
}

// A node.
impl Told for u32 {
    ghost values = { λ n. n ∷ [] };

    fn told(self) -> Answer {
        value(self.into())
    }
}

// A count of bytes.
impl Told for usize {
    ghost values = { λ n. n ∷ [] };

    fn told(self) -> Answer {
        value(self as u64)
    }
}

// 1 for done, 0 for not yet.
impl Told for bool {
    ghost values = { λ b. bit b ∷ [] };

    fn told(self) -> Answer {
        value(u64::from(self))
    }
}

// Done: no value.
impl Told for () {
    ghost values = { λ done. [] };

    fn told(self) -> Answer {
        value(0)
    }
}

// A flush's number and its sheet's length. Value 0 is "nothing".
impl Told for Option<Started> {
    ghost values = { values_of };

    fn told(self) -> Answer {
        match self {
            Some(started) => Answer {
                refusal: 0,
                value: started.number,
                length: started.length as u64,
            },
            None => value(0),
        }
    }
}

// A call's answer as the host gets it.
fn flattened<T: Told>(answer: Result<T, Reason>) -> Answer
    ensures { result ≡ flat (said_by T.values answer) }
{
    match answer {
        Ok(answered) => answered.told(),
        Err(why) => Answer {
            refusal: u32::from(reason::number_of(why)),
            value: 0,
            length: 0,
        },
    }
}

// Makes an empty ring.
#[unsafe(no_mangle)]
pub extern "C" fn vibetorch_make(ring: &mut [u8], mut state: State) -> Changed
    ensures { (result ≡ changed_by (outcome make_ring ring.old state)) × (ring.new ≡ (outcome make_ring ring.old state).ring) }
{
    let answer = calls::make(ring, &mut state);
    Changed {
        state,
        answer: flattened(answer),
    }
}

// Reopens a ring: a restart.
#[unsafe(no_mangle)]
pub extern "C" fn vibetorch_reopen(ring: &[u8], mut state: State) -> Changed
    ensures { result ≡ changed_by (outcome reopen_ring ring.now state) }
{
    let answer = calls::reopen(ring, &mut state);
    Changed {
        state,
        answer: flattened(answer),
    }
}

// Accepts a write.
#[unsafe(no_mangle)]
pub extern "C" fn vibetorch_write(
    ring: &mut [u8],
    mut state: State,
    node: u32,
    handle: u32,
    offset: u32,
    bytes: &[u8],
) -> Changed
    ensures { (result ≡ changed_by (outcome (write node handle offset bytes.now) ring.old state)) × (ring.new ≡ (outcome (write node handle offset bytes.now) ring.old state).ring) }
{
    let answer = calls::write(ring, &mut state, node, handle, offset, bytes);
    Changed {
        state,
        answer: flattened(answer),
    }
}

// Pins a node, or all (node 0).
#[unsafe(no_mangle)]
pub extern "C" fn vibetorch_pin(ring: &[u8], mut state: State, node: u32) -> Changed
    ensures { result ≡ changed_by (outcome (pin node) ring.now state) }
{
    let answer = calls::pin(ring, &mut state, node);
    Changed {
        state,
        answer: flattened(answer),
    }
}

// Ends a pin.
#[unsafe(no_mangle)]
pub extern "C" fn vibetorch_unpin(ring: &mut [u8], mut state: State, number: u64) -> Changed
    ensures { (result ≡ changed_by (outcome (unpin number) ring.old state)) × (ring.new ≡ (outcome (unpin number) ring.old state).ring) }
{
    let answer = calls::unpin(ring, &mut state, number);
    Changed {
        state,
        answer: flattened(answer),
    }
}

// Fills a read over what was fetched from shore.
#[unsafe(no_mangle)]
pub extern "C" fn vibetorch_fill(
    ring: &[u8],
    state: State,
    pin: u64,
    node: u32,
    offset: u32,
    fetched: usize,
    buffer: &mut [u8],
) -> Answer
    ensures { (result ≡ flat (outcome (fill_read pin node offset fetched buffer.old) ring.now state).said) × (buffer.new ≡ (outcome (fill_read pin node offset fetched buffer.old) ring.now state).buffer) }
{
    flattened(fill::fill(ring, &state, pin, node, offset, fetched, buffer))
}

// Where the node's cached bytes end.
#[unsafe(no_mangle)]
pub extern "C" fn vibetorch_cached_end(ring: &[u8], state: State, node: u32) -> Answer
    ensures { result ≡ flat (outcome (ask_end node) ring.now state).said }
{
    flattened(calls::cached_end(ring, &state, node))
}

// Starts a flush: the sheet is written in the buffer's front.
#[unsafe(no_mangle)]
pub extern "C" fn vibetorch_start(
    ring: &[u8],
    mut state: State,
    node: u32,
    buffer: &mut [u8],
) -> Changed
    ensures { (result ≡ changed_by (outcome (start_flush node buffer.old) ring.now state)) × (buffer.new ≡ (outcome (start_flush node buffer.old) ring.now state).buffer) }
{
    let answer = flush::start(ring, &mut state, node, buffer);
    Changed {
        state,
        answer: flattened(answer),
    }
}

// Reports a flush.
#[unsafe(no_mangle)]
pub extern "C" fn vibetorch_report(
    ring: &mut [u8],
    mut state: State,
    number: u64,
    good: bool,
) -> Changed
    ensures { (result ≡ changed_by (outcome (report number good) ring.old state)) × (ring.new ≡ (outcome (report number good) ring.old state).ring) }
{
    let answer = calls::report(ring, &mut state, number, good);
    Changed {
        state,
        answer: flattened(answer),
    }
}

// Takes a ticket.
#[unsafe(no_mangle)]
pub extern "C" fn vibetorch_take_ticket(ring: &[u8], mut state: State) -> Changed
    ensures { result ≡ changed_by (outcome take_ticket ring.now state) }
{
    let answer = calls::take_ticket(ring, &mut state);
    Changed {
        state,
        answer: flattened(answer),
    }
}

// Asks a ticket: 1 for done, 0 for not yet.
#[unsafe(no_mangle)]
pub extern "C" fn vibetorch_ask_ticket(ring: &[u8], state: State, ticket: u64, node: u32) -> Answer
    ensures { result ≡ flat (outcome (ask_ticket ticket node) ring.now state).said }
{
    flattened(calls::ask_ticket(ring, &state, ticket, node))
}

// Whose turn it is: a node, or 0.
#[unsafe(no_mangle)]
pub extern "C" fn vibetorch_whose_turn(ring: &[u8], state: State) -> Answer
    ensures { result ≡ flat (outcome ask_turn ring.now state).said }
{
    flattened(calls::whose_turn(ring, &state))
}
