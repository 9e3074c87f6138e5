// The flush sheet: which pieces a batch has, and their bytes in a lent buffer. Document 01, "Moves", paragraph "Sheet".
// There is no sort and no heap: a walk over the places where the newest write can change finds the pieces; the writes are then painted into them, oldest first.
#![tactic(auto)]

ghost use Rattle.std.specs.Prelude.{◌≡◌, map, ◌+◌, ◌-◌, ◌*◌, ◌≤◌, ◌<◌, length};
ghost use Rattle.layout.specs.Sizes.{file_end, largest};
ghost use Rattle.walk.specs.Walk.{write_of};
ghost use Rattle.layout.specs.Bytes.{bytes4, bytes_at, round};
ghost use Rattle.shore.specs.Cover.{spans};
ghost use Rattle.sheet.specs.Sheet.{list_of, data_by, sheet_of, laid_at};
ghost use Rattle.sheet.specs.Places.{Batch, Laid, Covered, AllCovered, byte_by, Painted, total, Steady, Ends, FoundAt, StartAt, StartFrom, key_at, key_by, overlies, grow, in_order, pieces_from, laid_if, made_from, no_piece};

use layout::rack::{Blank, Rack};
use layout::{Ring, Slots};
use walk::Entry;

// The most writes of a batch, and so the most pieces of its sheet.
pub const BATCH: usize = 32;

// The largest piece.
pub const PIECE: usize = 4096;

// Bytes from a start on, all of one key.
#[derive(Clone, Copy, Default)]
pub struct Piece {
    pub start: usize,
    pub size: usize,
    pub key: usize,
}

// The pieces of a sheet, ascending, in room for as many as a batch can have: there is no heap.
#[derive(Clone, Copy)]
pub struct Pieces {
    // The bytes of all of them.
    pub size: usize,
    pub list: Rack<Piece, BATCH>,
}

impl Blank for Piece {
    ghost blank = { no_piece };

    fn blank() -> Piece {
        Piece::default()
    }
}

// The newest write that covers a place, if one does; and a place up to which that stays so.
#[derive(Clone, Copy)]
pub struct Found {
    pub newest: Option<usize>,
    pub until: usize,
}

// Where a piece starts, its key, and a place up to which the key stays so.
#[derive(Clone, Copy)]
struct Start {
    place: usize,
    key: usize,
    until: usize,
}

// The key of a place: 0 where no write covers it. It stays a number, since what a piece is on paper (`gather`, `Piece.key`) is said of any keys.
fn key_of(newest: Option<usize>) -> usize
    ensures { result ≡ key_at newest }
{
    match newest {
        None => 0,
        Some(_) => 1,
    }
}

// Whether a write covers a place.
#[tactic(auto, unfolding(shore::specs::Cover::spans, layout::specs::Bytes::both))]
fn is_over(entry: Entry, p: usize) -> bool
    requires { entry.offset + entry.length ≤ file_end }
    ensures { result ≡ overlies p entry }
{
    let start = entry.offset as usize;
    let end = start + entry.length as usize;
    start <= p && p < end
}

// A place after p, at most end, before which a write covers what it covers at p.
#[tactic(auto, unfolding(shore::specs::Cover::spans, layout::specs::Bytes::both))]
fn nearer(entry: Entry, p: usize, end: usize) -> usize
    requires { (p < end) × (entry.offset + entry.length ≤ file_end) }
    ensures { Steady (spans entry.offset entry.length) p end result }
{
    let start = entry.offset as usize;
    let size = entry.length as usize;
    if p < start {
        return start.min(end);
    }
    if p < start + size {
        return (start + size).min(end);
    }
    end
}

// What walks over the places that a batch can cover: its entries, in number order.
// A step goes from a place to the end of what was found there, so its loops count nothing.
#[derive(Clone, Copy)]
struct Walker<'a> {
    entries: &'a [Entry],
    ghost batch: { Batch entries.now },
}

impl Walker<'_> {
    // The newest write that covers p, and how far it stays the newest, at most to end.
    #[tactic(auto, unfolding(crate::specs::Places::top_of))]
    fn find_at(&self, end: usize, p: usize) -> Found
        requires p_lt_end { p < end }
        ensures { FoundAt self.now.entries.now end p result }
    {
        let mut newest = None;
        let mut until = end;
        for (i, entry) in self.entries.iter().enumerate() {
            if is_over(*entry, p) {
                newest = Some(i);
            }
            until = nearer(*entry, p, until);
        }
        Found { newest, until }
    }

    // The first covered place from `at` on, if there is one before end.
    fn next_start(&self, end: usize, at: usize) -> Option<Start>
        requires at_le_end { at ≤ end }
        ensures { StartFrom (key_by self.now.entries.now) at end result }
    {
        let mut place = at;
        while place < end {
            let found = self.find_at(end, place);
            let key = key_of(found.newest);
            if 0 < key {
                return Some(Start {
                    place,
                    key,
                    until: found.until,
                });
            }
            place = found.until;
        }
        None
    }

    // Where the piece with that start ends. What the start knows already isn't searched for again.
    fn piece_end(&self, end: usize, start: Start) -> usize
        requires place_lt_end { (start.place < end) × (end ≤ file_end) × StartAt (key_by self.now.entries.now) end start }
        ensures { Ends (key_by self.now.entries.now) start.place end result }
    {
        let last = end.min(start.place + PIECE);
        let mut e = start.until.min(last);
        while e < last {
            let found = self.find_at(last, e);
            if key_of(found.newest) != start.key {
                return e;
            }
            e = found.until;
        }
        e
    }
}

// The pieces of a batch's sheet, ascending. The walker, whose type holds `Batch`, is made here.
pub fn pieces_of(entries: &[Entry]) -> Pieces
    requires { Batch entries.now }
    ensures { result ≡ pieces_from (in_order (grow (key_by entries.now) file_end)) }
{
    let end = Ring::FILE_END as usize;
    let walker = Walker { entries };
    let mut list = Rack::new();
    let mut size = 0;
    let mut at = 0;
    while let Some(start) = walker.next_start(end, at) {
        at = walker.piece_end(end, start);
        let bytes = at - start.place;
        list.push(Piece {
            start: start.place,
            size: bytes,
            key: start.key,
        });
        size += bytes;
    }
    Pieces { size, list }
}

// A number as 4 bytes of the buffer.
fn put_number(buffer: &mut [u8], at: usize, x: usize)
    requires { at + 4 ≤ length buffer.old }
    ensures { buffer.new ≡ laid_at buffer.old at (bytes4 x) }
{
    buffer[at..at + 4].copy_from_slice(&x.to_le_bytes()[..4]);
}

// The offset and the length of each piece, behind the sheet's first 8 bytes.
fn put_list(buffer: &mut [u8], list: &[Piece])
    requires { 8 + 8 * length list.now ≤ length buffer.old }
    ensures { buffer.new ≡ laid_at buffer.old 8 (list_of list.now) }
{
    for (k, piece) in list.iter().enumerate() {
        put_number(buffer, 8 + 8 * k, piece.start);
        put_number(buffer, 12 + 8 * k, piece.size);
    }
}

// What a sheet's bytes are taken from: the entries of a batch in number order, and the slots that have their bytes.
#[derive(Clone, Copy)]
struct Source<'a> {
    slots: Slots<'a>,
    entries: &'a [Entry],
    ghost laid: { Laid slots.n entries.now },
}

impl Source<'_> {
    // Paints a write over the places from `start` on: those that it covers get its bytes, the others stay.
    fn put_overlap(&self, entry: Entry, start: usize, out: &mut [u8])
        requires slot_lt_n { (entry.slot < self.now.slots.n) × (entry.length ≤ largest) × (entry.offset + entry.length ≤ file_end) }
        requires out_bound { start + length out.old ≤ file_end }
        ensures { Painted (round self.now.slots.bytes.now self.now.slots.n) entry start out.old out.new }
    {
        let low = entry.offset as usize;
        let high = low + entry.length as usize;
        let from = low.max(start);
        let until = high.min(start + out.len());
        if from < until {
            let skip = from - low;
            let part = &mut out[from - start..until - start];
            walk::entry_bytes(&self.slots, entry, skip, part);
        }
    }

    // The bytes of a piece: each write is painted over the older ones, so the newest is seen, and no place is searched for. Writes are named by place, so that the
    // wrong order can be tried (must-fail/oldest_write_wins.edit); the wrong order of an iterator only unfits the proof.
    fn put_piece(&self, start: usize, out: &mut [u8])
        requires { (start + length out.old ≤ file_end) × Covered self.now.entries.now start (length out.old) }
        ensures { out.new ≡ bytes_at (byte_by (round self.now.slots.bytes.now self.now.slots.n) self.now.entries.now) start (length out.old) }
    {
        for i in 0..self.entries.len() {
            self.put_overlap(self.entries[i], start, out);
        }
    }

    // The bytes of a piece, in the part of a buffer from `at` up to `end`. The buffer comes whole, so that the promise speaks of what stands before and behind.
    fn put_part(&self, start: usize, buffer: &mut [u8], at: usize, end: usize)
        requires { (at ≤ end) × (end ≤ length buffer.old) × (start + (end - at) ≤ file_end) × Covered self.now.entries.now start (end - at) }
        ensures { buffer.new ≡ laid_at buffer.old at (bytes_at (byte_by (round self.now.slots.bytes.now self.now.slots.n) self.now.entries.now) start (end - at)) }
    {
        self.put_piece(start, &mut buffer[at..end]);
    }

    // The bytes of all pieces, from `from` on.
    fn put_data(&self, list: &[Piece], buffer: &mut [u8], from: usize)
        requires { (from + total list.now ≤ length buffer.old) × AllCovered self.now.entries.now list.now }
        ensures { buffer.new ≡ laid_at buffer.old from (data_by (byte_by (round self.now.slots.bytes.now self.now.slots.n) self.now.entries.now) list.now) }
    {
        let mut at = from;
        for piece in list {
            let end = at + piece.size;
            self.put_part(piece.start, buffer, at, end);
            at = end;
        }
    }

    // The whole sheet, in a buffer that is long enough.
    fn put_sheet(&self, node: u32, list: &[Piece], buffer: &mut [u8])
        requires { (list.now ≡ in_order (grow (key_by self.now.entries.now) file_end)) × (8 + 8 * length list.now + total list.now ≤ length buffer.old) }
        ensures { buffer.new ≡ laid_at buffer.old 0 (sheet_of node (map (write_of (round self.now.slots.bytes.now self.now.slots.n)) self.now.entries.now)) }
    {
        put_number(buffer, 0, list.len());
        put_number(buffer, 4, node as usize);
        put_list(buffer, list);
        self.put_data(list, buffer, 8 + 8 * list.len());
    }
}

// The sheet of a batch, written to the front of a buffer, and its length; or none where the buffer is too short for it and stays as it was.
// The source, whose type holds `Laid`, is made here.
pub fn make_sheet(slots: &Slots, entries: &[Entry], node: u32, buffer: &mut [u8]) -> Option<usize>
    requires { Laid slots.now.n entries.now }
    ensures made { result ≡ made_from (length buffer.old) (sheet_of node (map (write_of (round slots.now.bytes.now slots.now.n)) entries.now)) }
    ensures buffer { buffer.new ≡ laid_if buffer.old (sheet_of node (map (write_of (round slots.now.bytes.now slots.now.n)) entries.now)) }
{
    let pieces = pieces_of(entries);
    let list = pieces.list.as_slice();
    let length = 8 + 8 * list.len() + pieces.size;
    if buffer.len() < length {
        return None;
    }
    let source = Source {
        slots: *slots,
        entries,
    };
    source.put_sheet(node, list, buffer);
    Some(length)
}
