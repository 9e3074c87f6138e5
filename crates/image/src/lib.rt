// What the slots of an entry hold: its head, its bytes, and zeros to the slot's end, 256 bytes at a time.
// Document 01, "The ring in battery memory", second table. Nothing here is lent a ring.
#![tactic(auto)]

ghost use Rattle.std.specs.Prelude.{◌≡◌, ◌≤◌, ◌<◌, length};
ghost use Rattle.layout.specs.Sizes.{largest, slots_of};
ghost use Rattle.image.specs.Image.{head_bytes, slot_bytes};

use layout::Ring;
use walk::Entry;

// The bytes of an entry's head.
pub fn head_bytes(entry: Entry) -> [u8; Ring::HEAD]
    ensures { result ≡ head_bytes entry }
{
    let mut head = [0; Ring::HEAD];
    head[0..8].copy_from_slice(&entry.number.to_le_bytes());
    head[8..12].copy_from_slice(&entry.node.to_le_bytes());
    head[12..16].copy_from_slice(&entry.handle.to_le_bytes());
    head[16..20].copy_from_slice(&entry.offset.to_le_bytes());
    head[20..22].copy_from_slice(&entry.length.to_le_bytes()[0..2]);
    head[22..24].copy_from_slice(&entry.zero.to_le_bytes()[0..2]);
    head
}

// An entry's first slot: its head and the first of its bytes. Entry and bytes come apart: the ring keeps the one, and a caller lends the other for a call.
pub fn first_image(entry: Entry, src: &[u8]) -> [u8; Ring::SLOT]
    requires { entry.length ≡ length src.now }
    ensures { result ≡ slot_bytes entry src.now 0 }
{
    let mut image = [0; Ring::SLOT];
    let count = src.len().min(Ring::SLOT - Ring::HEAD);
    image[..Ring::HEAD].copy_from_slice(&head_bytes(entry));
    image[Ring::HEAD..Ring::HEAD + count].copy_from_slice(&src[..count]);
    image
}

// Slot i of an entry, behind the first: the bytes from there on.
pub fn later_image(entry: Entry, src: &[u8], i: usize) -> [u8; Ring::SLOT]
    requires { (entry.length ≡ length src.now) × (0 < i) × (i < slots_of entry.length) × (entry.length ≤ largest) }
    ensures { result ≡ slot_bytes entry src.now i }
{
    let from = i * Ring::SLOT - Ring::HEAD;
    let count = (src.len() - from).min(Ring::SLOT);
    let mut slot = [0; Ring::SLOT];
    slot[..count].copy_from_slice(&src[from..from + count]);
    slot
}
