// Storing in a ring: an empty header, an entry with its bytes, the head byte.
// Document 01, "The ring in battery memory". An entry is stored before the tail byte that shows it.
// Each function is one pass over the bytes that it stores.
#![tactic(auto)]

ghost use Rattle.std.specs.Prelude.{◌≡◌, ◌+◌, ◌%◌, ◌≤◌, ◌<◌, length};
ghost use Rattle.layout.specs.Sizes.{header_size, most_slots, largest};
ghost use Rattle.layout.specs.Bytes.{Sized};
ghost use Rattle.store.specs.Store.{empty_header, made, made_answer, stored, head_moved};

use layout::Ring;
use reason::Reason;
use walk::Entry;

pub mod step;

// The header of an empty ring of n slots.
fn empty_header(n: usize) -> [u8; Ring::HEADER]
    requires { n ≤ most_slots }
    ensures { result ≡ empty_header n }
{
    let mut header = [0; Ring::HEADER];
    header[0] = Ring::EDITION;
    header[1] = n as u8;
    header
}

// Makes an empty ring in a buffer of a valid length; the only refusal is BadBuffer.
pub fn make(bytes: &mut [u8]) -> Result<(), Reason>
    ensures answer { result ≡ made_answer bytes.old }
    ensures bytes { bytes.new ≡ made bytes.old }
{
    if bytes.len() < Ring::HEADER {
        return Err(Reason::BadBuffer);
    }
    let n = (bytes.len() - Ring::HEADER) / Ring::SLOT;
    if n < Ring::FEWEST {
        return Err(Reason::BadBuffer);
    }
    if Ring::MOST < n {
        return Err(Reason::BadBuffer);
    }
    if bytes.len() != Ring::HEADER + n * Ring::SLOT {
        return Err(Reason::BadBuffer);
    }
    bytes[..Ring::HEADER].copy_from_slice(&empty_header(n));
    Ok(())
}

// The tail slot after an entry of so many slots, taken round at N.
fn tail_after(n: usize, slot: usize, slots: usize) -> usize
    requires { (0 < n) × (slot + slots < 65536) }
    ensures { result ≡ (slot + slots) % n }
{
    (slot + slots) % n
}

// Stores an entry with its bytes in its slots, and then the tail byte. The bytes are lent by the caller, so they are no part of the entry.
pub fn store(bytes: &mut [u8], n: usize, entry: Entry, src: &[u8])
    requires sized { Sized bytes.old n }
    requires slot_lt_n { (entry.slot < n) × (entry.length ≡ length src.now) × (entry.length ≤ largest) }
    ensures { bytes.new ≡ stored bytes.old n entry src.now }
{
    let slot = entry.slot as usize;
    let slots = Ring::slots(entry.length);
    let start = slot * Ring::SLOT;
    let used = Ring::HEAD + src.len();
    layout::put_bytes(bytes, n, start, &image::head_bytes(entry));
    layout::put_bytes(bytes, n, start + Ring::HEAD, src);
    layout::put_zeros(bytes, n, start + used, slots * Ring::SLOT - used);
    bytes[3] = tail_after(n, slot, slots) as u8;
}

// Moves the head on to a slot.
#[tactic(auto, unfolding(crate::specs::Store::head_moved))]
pub fn move_head(bytes: &mut [u8], slot: usize)
    requires { (header_size ≤ length bytes.old) × (slot ≤ most_slots) }
    ensures { bytes.new ≡ head_moved bytes.old slot }
{
    bytes[2] = slot as u8;
}
