// The state that goes in and out of every call, by value, and what is worked out from it and the ring's entries: moves, marks, letting
// go, and what is asked. Document 01, "Moves". Nothing here reads or stores a byte of the ring.
#![tactic(auto)]

ghost use Rattle.std.specs.Prelude.{◌≡◌, true, [], map, ◌+◌, ◌≤◌, ◌<◌, length, replicate};
ghost use Rattle.std.specs.List.{list_any};
ghost use Rattle.layout.specs.Sizes.{most_entries, number_limit};
ghost use Rattle.walk.specs.Walk.{slots_used, last_of, Rising};
ghost use Rattle.state.specs.Lists.{
  all,
  place_of,
  IsPlaceOf,
  phase_fits,
  RisingTo,
  no_listed,
  entry_of,
  no_held,
  listing,
  with_held,
  comes_back,
  reopened,
};
ghost use Rattle.state.specs.Moves.{column, move_of, reported};
ghost use Rattle.state.specs.Pins.{reaches, keeps, is_due, leaving, slots_left, mark_of, pin_place};
ghost use Rattle.state.specs.Asks.{seeks, turn_of, ticket_done, later_end, cached_end};

use layout::Ring;
use layout::rack::Blank;
use walk::Entry;

// The four states of a write. They are numbers and no enum: C hands in any byte (`Listed`), the table has 9 for what can't happen, and
// the theorems of `rules` and `history` reckon with them (`kept_all`, `landed_all`).
pub const UNFLUSHED: u8 = 0;

pub const IN_FLIGHT: u8 = 1;

pub const FLUSHED: u8 = 2;

pub const GONE: u8 = 3;

// The five events that move a write: the table's columns, in their order.
#[derive(Clone, Copy)]
pub enum Event {
    Taken,
    Good,
    Bad,
    LetGo,
    Reopen,
}

// The table of moves; 9 means the move can't happen.
pub const MOVES: [[u8; 5]; 4] = [
    [1, 9, 9, 9, 0],
    [9, 2, 0, 9, 0],
    [9, 9, 9, 3, 0],
    [9, 9, 9, 9, 9],
];

pub const PINS: usize = 16;

// A write as the state lists it.
#[repr(C)]
#[derive(Clone, Copy, Default)]
pub struct Listed {
    pub number: u64,
    // One of the four states. C may hand in any byte, and the judge looks at it.
    pub phase: u8,
}

// A pin; number 0 is a free record. Numbers alone, since C lays the records out.
#[repr(C)]
#[derive(Clone, Copy, Default)]
pub struct Pin {
    pub number: u64,
    pub mark: u64,
    // 0 is for all nodes.
    pub node: u32,
}

// The state as C lays it out: arrays of a fixed size, since nothing here takes memory from a heap.
#[repr(C)]
#[derive(Clone, Copy)]
pub struct State {
    // The next number that a write, a pin, a flush start or a ticket takes.
    pub next: u64,
    // The flush under way, or 0: C has no Option.
    pub flush: u64,
    // How many writes are listed.
    pub count: usize,
    pub writes: [Listed; Ring::ENTRIES],
    pub pins: [Pin; PINS],
}

// A write that is held: its entry in the ring beside its state of the four. A report of an event that the table forbids gives it 9
// (`reported`), so its type bounds no state.
#[derive(Clone, Copy, Default)]
pub struct Held {
    pub entry: Entry,
    pub phase: u8,
}

impl Blank for Held {
    ghost blank = { no_held };

    fn blank() -> Held {
        Held::default()
    }
}

// What a search looks for.
#[derive(Clone, Copy)]
pub struct Query {
    // In reach of this node; 0 is all, as in a pin (`reaches`).
    pub node: u32,
    pub below: u64,
    pub low: u8,
    pub high: u8,
}

// How many leave from the head, and the slots that they take.
#[derive(Clone, Copy)]
pub struct Leaving {
    pub count: usize,
    pub slots: usize,
}

// The state that an event moves a write to.
#[tactic(auto, unfolding(crate::specs::Moves::move_of))]
pub fn move_of(from: u8, event: Event) -> u8
    requires { from < 4 }
    ensures { result ≡ move_of from (column event) }
{
    MOVES[usize::from(from)][event as usize]
}

impl Held {
    // The write after a report.
    #[tactic(auto, using(std::proofs::lemmas::Bool::Decides::nat_tests), unfolding(crate::specs::Moves::reported))]
    fn reported(self, event: Event) -> Held
        ensures { result ≡ reported (column event) self }
    {
        if self.phase == IN_FLIGHT {
            return Held {
                phase: move_of(IN_FLIGHT, event),
                ..self
            };
        }
        self
    }

    // Whether the write is in reach of one node, or of all.
    fn in_reach(self, node: u32) -> bool
        ensures { result ≡ reaches node self }
    {
        node == 0 || self.entry.node == node
    }

    // Whether the write is what a search looks for.
    #[tactic(auto, using(std::proofs::lemmas::Bool::Decides::nat_tests), unfolding(crate::specs::Asks::seeks, layout::specs::Bytes::both))]
    fn is_sought(self, query: Query) -> bool
        ensures { result ≡ seeks query self }
    {
        self.in_reach(query.node)
            && self.entry.number < query.below
            && query.low <= self.phase
            && self.phase <= query.high
    }

    // Whether a pin keeps the write in the ring.
    #[tactic(auto, using(std::proofs::lemmas::Bool::Decides::nat_tests), unfolding(crate::specs::Pins::keeps, layout::specs::Bytes::both))]
    fn is_kept_by(self, pin: Pin) -> bool
        ensures { result ≡ keeps self pin }
    {
        pin.number != 0 && self.in_reach(pin.node) && pin.mark <= self.entry.number
    }

    // The larger of an end and that of the write, where it is the node's.
    #[tactic(auto, using(std::proofs::lemmas::Bool::Decides::nat_tests, crate::proofs::Extremes::larger_max), unfolding(crate::specs::Asks::later_end))]
    fn later_end(self, end: u64, node: u32) -> u64
        ensures { result ≡ later_end node end self }
    {
        let entry = self.entry;
        if entry.node != node {
            return end;
        }
        end.max(u64::from(entry.offset) + u64::from(entry.length))
    }
}

// The place of the first write that is sought, if there is one.
pub fn find(held: &[Held], query: Query) -> Option<usize>
    ensures { IsPlaceOf result (place_of (seeks query) held.now) (length held.now) }
{
    held.iter().position(|one| one.is_sought(query))
}

// ---- reports

// The held writes after a report: the batch moves by the table, the others stay.
pub fn report_all(held: &mut [Held], event: Event)
    ensures { held.new ≡ map (reported (column event)) held.old }
{
    for one in held.iter_mut() {
        *one = one.reported(event);
    }
}

// ---- pins, marks and letting go

// The mark that a pin with that number gets now.
pub fn mark_of(held: &[Held], node: u32, own: u64) -> u64
    requires { RisingTo own 0 held.now × all phase_fits held.now ≡ true }
    ensures { result ≡ mark_of node own held.now }
{
    let query = Query {
        node,
        below: own,
        low: UNFLUSHED,
        high: IN_FLIGHT,
    };
    match find(held, query) {
        Some(i) => held[i].entry.number,
        None => own,
    }
}

// Whether any pin keeps a write.
fn is_kept(pins: &[Pin], held: Held) -> bool
    ensures { result ≡ list_any (keeps held) pins.now }
{
    pins.iter().any(|pin| held.is_kept_by(*pin))
}

// Whether a write is due to leave once it is at the head: the table lets it go, and no pin keeps it.
#[tactic(auto, using(crate::proofs::LettingGo::due_yes, crate::proofs::LettingGo::due_no))]
pub fn is_due(pins: &[Pin], held: Held) -> bool
    requires { held.phase < 4 }
    ensures { result ≡ is_due pins.now held }
{
    move_of(held.phase, Event::LetGo) == GONE && !is_kept(pins, held)
}

// Those that leave from the head.
pub fn leave(held: &[Held], pins: &[Pin]) -> Leaving
    requires fit { all phase_fits held.now ≡ true }
    requires held_bound { slots_used (map entry_of held.now) ≤ most_entries }
    ensures { (result.count ≡ length (leaving pins.now held.now)) × (result.slots ≡ slots_left pins.now held.now) }
{
    let mut slots: usize = 0;
    for (i, one) in held.iter().enumerate() {
        if !is_due(pins, *one) {
            return Leaving { count: i, slots };
        }
        slots += Ring::slots(one.entry.length);
    }
    Leaving {
        count: held.len(),
        slots,
    }
}

// The array before anything is listed. Three functions begin with it, and that it is blank is proved here.
fn none_listed() -> [Listed; Ring::ENTRIES]
    ensures { result ≡ replicate most_entries no_listed }
{
    [Listed::default(); Ring::ENTRIES]
}

// The held writes as the state lists them. A slice has no bound of its own, so the limit is asked wherever a list becomes an array.
fn list_of(held: &[Held]) -> [Listed; Ring::ENTRIES]
    requires { length held.now ≤ most_entries }
    ensures { result ≡ listing held.now }
{
    let mut writes = none_listed();
    for (i, one) in held.iter().enumerate() {
        writes[i] = Listed {
            number: one.entry.number,
            phase: one.phase,
        };
    }
    writes
}

impl State {
    // Lists the held writes.
    pub fn relist(&mut self, held: &[Held])
        requires { length held.now ≤ most_entries }
        ensures { self.new ≡ with_held self.old held.now }
    {
        let writes = list_of(held);
        self.writes = writes;
        self.count = held.len();
    }
}

// The place of the first record with that number, if there is one.
pub fn find_pin(pins: &[Pin], number: u64) -> Option<usize>
    ensures { IsPlaceOf result (pin_place number pins.now) (length pins.now) }
{
    pins.iter().position(|pin| pin.number == number)
}

// ---- what is asked

// The node whose turn it is, or 0, as the definition `turn_of` has it.
pub fn turn_of(held: &[Held]) -> u32
    requires { RisingTo number_limit 0 held.now }
    ensures { result ≡ turn_of held.now }
{
    let query = Query {
        node: 0,
        below: Ring::NUMBERS,
        low: UNFLUSHED,
        high: UNFLUSHED,
    };
    match find(held, query) {
        Some(i) => held[i].entry.node,
        None => 0,
    }
}

// Whether a ticket is done.
pub fn is_done(held: &[Held], ticket: u64, node: u32) -> bool
    requires { all phase_fits held.now ≡ true }
    ensures { result ≡ ticket_done ticket node held.now }
{
    let query = Query {
        node,
        below: ticket,
        low: UNFLUSHED,
        high: IN_FLIGHT,
    };
    find(held, query).is_none()
}

// The end that a node's file has at least, once its writes are laid on.
pub fn end_of(held: &[Held], node: u32) -> u64
    ensures { result ≡ cached_end node held.now }
{
    held.iter().fold(0, |end, one| one.later_end(end, node))
}

// ---- reopening

// The entries as they come back. A loop of its own beside `list_of`: a trait for both, with its law and two impls, would be longer.
fn list_back(entries: &[Entry]) -> [Listed; Ring::ENTRIES]
    requires { length entries.now ≤ most_entries }
    ensures { result ≡ listing (map comes_back entries.now) }
{
    let phase = move_of(UNFLUSHED, Event::Reopen);
    let mut writes = none_listed();
    for (i, entry) in entries.iter().enumerate() {
        writes[i] = Listed {
            number: entry.number,
            phase,
        };
    }
    writes
}

// The number after the last entry's.
fn next_after(entries: &[Entry]) -> u64
    requires { Rising 0 entries.now }
    ensures { result ≡ last_of 0 entries.now + 1 }
{
    match entries.last() {
        Some(last) => last.number + 1,
        None => 1,
    }
}

// The state of an empty ring.
pub fn empty_state() -> State
    ensures { result ≡ reopened [] }
{
    State {
        next: 1,
        flush: 0,
        count: 0,
        writes: none_listed(),
        pins: [Pin::default(); PINS],
    }
}

// The state that reopening gives.
pub fn reopen_state(entries: &[Entry]) -> State
    requires { (length entries.now ≤ most_entries) × Rising 0 entries.now }
    ensures { result ≡ reopened entries.now }
{
    let next = next_after(entries);
    let writes = list_back(entries);
    State {
        next,
        count: entries.len(),
        writes,
        ..empty_state()
    }
}
