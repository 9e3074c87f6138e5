// Reading a ring: its header, its entries, and the walk from head to tail that reopening makes.
// Document 01, "The ring in battery memory". Nothing here stores a byte.
// A walk looks at each entry's head and filler once; an entry's bytes are read where they are wanted.
#![tactic(auto)]

ghost use Rattle.std.specs.Prelude.{◌≡◌, ◌+◌, ◌≤◌, ◌<◌, length, get_or, take, drop, replicate};
ghost use Rattle.layout.specs.Sizes.{most_slots, most_entries, head_size, largest};
ghost use Rattle.layout.specs.Bytes.{Sized, flat, round};
ghost use Rattle.walk.specs.Header.{header_of};
ghost use Rattle.walk.specs.Entry.{head_at, entry_at, valid_fields, filler, data_of};
ghost use Rattle.walk.specs.Walk.{
  step_at,
  walk,
  start,
  reads,
  reading_of,
  answer_of,
  no_entry,
  unreadable,
};

use layout::rack::{Blank, Rack};
use layout::{Ring, Slots};
use reason::Reason;

// An entry's head, and where it stands. A walk reads it from any bytes, so its type holds none of the table's bounds: who needs one asks for it.
#[derive(Clone, Copy, Default)]
pub struct Entry {
    pub number: u64,
    pub node: u32,
    pub handle: u32,
    // The first byte's place in the node's file.
    pub offset: u32,
    // How many bytes are written.
    pub length: u32,
    // Bytes 22 and 23, which are zero.
    pub zero: u32,
    // The slot that the entry starts in, below N.
    pub slot: u32,
}

// A place of the walk.
#[derive(Clone, Copy)]
pub struct Cursor {
    // The slot, counted on from head and not turned round at N.
    pub place: usize,
    // How many slots there are until the tail.
    pub left: usize,
    // The number of the entry before, or 0, which is below every number: so one test serves the first entry too.
    pub last: u64,
}

// The most entries that a ring holds.
pub const ENTRIES: usize = Ring::ENTRIES;

// A ring that can be read, with its entries, oldest first, in room for as many as a ring holds: there is no heap.
#[derive(Clone, Copy)]
pub struct Walked {
    pub ring: Ring,
    pub entries: Rack<Entry, ENTRIES>,
}

impl Blank for Entry {
    ghost blank = { no_entry };

    fn blank() -> Entry {
        no_entry()
    }
}

// The header, if the bytes have one and are as long as it says.
pub fn header_of(bytes: &[u8]) -> Option<Ring>
    ensures { result ≡ header_of bytes.now }
{
    if bytes.len() < Ring::HEADER {
        return None;
    }
    let n = usize::from(bytes[1]);
    let head = usize::from(bytes[2]);
    let tail = usize::from(bytes[3]);
    if n < Ring::FEWEST {
        return None;
    }
    if bytes.len() != Ring::HEADER + n * Ring::SLOT {
        return None;
    }
    if bytes[0] != Ring::EDITION {
        return None;
    }
    if n <= head {
        return None;
    }
    if n <= tail {
        return None;
    }
    if !layout::zeros_at(bytes, 4, 12) {
        return None;
    }
    Some(Ring {
        n,
        head,
        used: (n + tail - head) % n,
    })
}

// The head that stands at byte p, of the entry that starts in a slot.
fn head_at(bytes: &[u8], p: usize, slot: u32) -> Entry
    requires { p + head_size ≤ length bytes.now }
    ensures value { result ≡ head_at (flat bytes.now) p slot }
    ensures length_bound { result.length < 65536 }
{
    Entry {
        number: u64::from_le_bytes(layout::array_at(bytes, p)),
        node: u32::from_le_bytes(layout::array_at(bytes, p + 8)),
        handle: u32::from_le_bytes(layout::array_at(bytes, p + 12)),
        offset: u32::from_le_bytes(layout::array_at(bytes, p + 16)),
        length: u32::from(u16::from_le_bytes(layout::array_at(bytes, p + 20))),
        zero: u32::from(u16::from_le_bytes(layout::array_at(bytes, p + 22))),
        slot,
    }
}

// The head of the entry at a place.
fn entry_at(slots: &Slots, place: usize) -> Entry
    ensures value { result ≡ entry_at (round slots.now.bytes.now slots.now.n) slots.now.n place }
    ensures length_bound { result.length < 65536 }
{
    let slot = layout::around(place, slots.n);
    head_at(slots.bytes, Ring::HEADER + slot * Ring::SLOT, slot as u32)
}

// Whether an entry's fields keep the table.
fn valid_fields(entry: Entry) -> bool
    ensures { result ≡ valid_fields entry }
{
    if entry.number == 0 {
        return false;
    }
    if Ring::NUMBERS <= entry.number {
        return false;
    }
    if entry.node == 0 {
        return false;
    }
    if entry.length == 0 {
        return false;
    }
    if Ring::LARGEST < entry.length {
        return false;
    }
    if entry.zero != 0 {
        return false;
    }
    if Ring::FILE_END - entry.length < entry.offset {
        return false;
    }
    true
}

// Whether the rest of the last slot is zero, of an entry of that many bytes at a place.
// The filler never crosses the ring's end, since a slot doesn't.
fn filler_at(slots: &Slots, place: usize, length: u32) -> bool
    requires { (place < most_slots + most_slots) × (length < 65536) }
    ensures { result ≡ filler (round slots.now.bytes.now slots.now.n) place length }
{
    let full = Ring::slots(length) - 1;
    let slot = layout::around(place + full, slots.n);
    let start = Ring::HEAD + length as usize - full * Ring::SLOT;
    layout::zeros_at(
        slots.bytes,
        Ring::HEADER + slot * Ring::SLOT + start,
        Ring::SLOT - start,
    )
}

// One step of the walk.
pub fn step_at(slots: &Slots, at: Cursor) -> Option<Entry>
    requires { at.place < most_slots + most_slots }
    ensures { result ≡ step_at (round slots.now.bytes.now slots.now.n) slots.now.n at }
{
    let place = at.place;
    let entry = entry_at(slots, place);
    if !valid_fields(entry) {
        return None;
    }
    if entry.number <= at.last {
        return None;
    }
    if at.left < Ring::slots(entry.length) {
        return None;
    }
    if !filler_at(slots, place, entry.length) {
        return None;
    }
    Some(entry)
}

// What stands where there is no entry.
pub fn no_entry() -> Entry
    ensures { result ≡ no_entry }
{
    Entry::default()
}

// The walk from head: where a step yields no entry short of the tail, the answer is no at once. It goes on by the slots of what it found, so nothing
// is counted. Bytes and ring come apart here, since this is where their view is made; a view beside a ring would have to be said to be of it.
fn collect(bytes: &[u8], ring: Ring) -> Result<Walked, Reason>
    requires sized { Sized bytes.now ring.n }
    requires head_lt_n { (ring.head < ring.n) × (ring.used < ring.n) }
    ensures { result ≡ answer_of (reads ring (walk (round bytes.now ring.n) ring.n (start ring))) }
{
    let slots = Slots { bytes, n: ring.n };
    let mut entries = Rack::new();
    let mut place = ring.head;
    let mut left = ring.used;
    let mut last = 0;
    while 0 < left {
        let step = step_at(&slots, Cursor { place, left, last });
        let Some(entry) = step else {
            return Err(Reason::Unreadable);
        };
        let taken = Ring::slots(entry.length);
        entries.push(entry);
        place += taken;
        left -= taken;
        last = entry.number;
    }
    Ok(Walked { ring, entries })
}

// What the bytes hold, whatever they are; the only refusal is Unreadable.
pub fn read(bytes: &[u8]) -> Result<Walked, Reason>
    ensures { result ≡ answer_of (reading_of bytes.now) }
{
    let ring = header_of(bytes).ok_or(Reason::Unreadable)?;
    collect(bytes, ring)
}

// Byte i of an entry's bytes.
pub fn entry_byte(slots: &Slots, entry: Entry, i: usize) -> u8
    requires { i < entry.length }
    ensures { result ≡ get_or (data_of (round slots.now.bytes.now slots.now.n) entry) i 0 }
{
    slots.byte(entry.slot as usize * Ring::SLOT + Ring::HEAD + i)
}

// Copies out an entry's bytes from byte `from` on, until the lent part is full.
pub fn entry_bytes(slots: &Slots, entry: Entry, from: usize, out: &mut [u8])
    requires { (entry.slot < slots.now.n) × (entry.length ≤ largest) × (from + length out.old ≤ entry.length) }
    ensures { out.new ≡ take (length out.old) (drop from (data_of (round slots.now.bytes.now slots.now.n) entry)) }
{
    let p = entry.slot as usize * Ring::SLOT + Ring::HEAD + from;
    slots.take(p, out);
}
