// Stores as steps: a slot, and one byte. Each store is one step of a call.
// What `store` and `move_head` leave in a ring is what these steps leave, one after the other (proofs/Steps, `stored_run` and `moved_run`).
// Document 02, Q-8: "A store of one byte lands whole or not at all; a slot that is cut short may hold anything."
ghost use Rattle.std.specs.Prelude.{◌≡◌, ◌+◌, ◌≤◌, ◌<◌, length};
ghost use Rattle.layout.specs.Sizes.{largest, slots_of};
ghost use Rattle.layout.specs.Bytes.{Sized};
ghost use Rattle.store.specs.Steps.{in_slot, one_byte, place_of, run_step};
ghost use Rattle.store.specs.Storing.{store_step};

use crate::tail_after;
use layout::Ring;
use walk::Entry;

// Stores a slot's bytes.
fn put_slot(bytes: &mut [u8], slot: usize, image: &[u8])
    requires { place_of slot + length image.now ≤ length bytes.old }
    ensures { bytes.new ≡ run_step bytes.old (in_slot slot image.now) }
{
    let start = Ring::HEADER + slot * Ring::SLOT;
    bytes[start..start + image.len()].copy_from_slice(image);
}

// Stores one byte.
pub fn put_byte(bytes: &mut [u8], p: usize, value: u8)
    requires { p < length bytes.old }
    ensures { bytes.new ≡ run_step bytes.old (one_byte p value) }
{
    bytes[p] = value;
}

// Step i of storing an entry with its bytes: one slot, or the tail byte behind the last. Chosen by its number, as the definition numbers them (`store_step`):
// a host stops and goes on between any two.
pub fn store_step(bytes: &mut [u8], n: usize, entry: Entry, src: &[u8], i: usize)
    requires sized { Sized bytes.old n }
    requires slot_lt_n { (entry.slot < n) × (entry.length ≡ length src.now) × (entry.length ≤ largest) × (i ≤ slots_of entry.length) }
    ensures { bytes.new ≡ run_step bytes.old (store_step n entry src.now i) }
{
    let slot = entry.slot as usize;
    let slots = Ring::slots(entry.length);
    if i == 0 {
        let image = image::first_image(entry, src);
        put_slot(bytes, slot, &image);
        return;
    }
    if i < slots {
        let image = image::later_image(entry, src, i);
        put_slot(bytes, layout::around(slot + i, n), &image);
        return;
    }
    put_byte(bytes, 3, tail_after(n, slot, slots) as u8);
}
