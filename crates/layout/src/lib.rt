// The ring's own type, and the bytes below it: sizes named once, numbers little-endian, runs of
// zeros, and copies round the ring's end in two moves.
// Document 01, "The ring in battery memory". Every function here is one pass over the bytes it is
// told of, and only our own crates call it: the callers show what it requires.
#![tactic(auto)]

ghost use Rattle.std.specs.Prelude.{◌≡◌, ◌+◌, ◌-◌, ◌*◌, ◌%◌, ◌≤◌, ◌<◌, length, replicate, min};
ghost use Rattle.layout.specs.Sizes.{header_size, fewest_slots, most_slots, span_of, slots_of};
ghost use Rattle.layout.specs.Bytes.{Sized, flat, round, bytes_at, zeros_at, put};

pub mod rack;

// A ring as its header tells it.
#[derive(Clone, Copy)]
pub struct Ring {
    // N, how many slots there are.
    pub n: usize,
    // The head slot, where the oldest entry starts.
    pub head: usize,
    // How many slots the entries use. The tail slot is this many after the head, modulo N.
    pub used: usize,
}

impl Ring {
    // The layout edition.
    pub const EDITION: u8 = 1;
    // The header's bytes.
    pub const HEADER: usize = 16;

    pub const SLOT: usize = 256;
    // N is at least this, so that the largest write fits, and at most what a byte holds.
    pub const FEWEST: usize = 18;

    pub const MOST: usize = 255;
    // The most entries that a ring holds: one slot stays free.
    pub const ENTRIES: usize = Ring::MOST - 1;
    // An entry's bytes before its data.
    pub const HEAD: usize = 24;
    // The largest write.
    pub const LARGEST: u32 = 4096;
    // Numbers are below this.
    pub const NUMBERS: u64 = 4611686018427387904;
    // The end that a file may have.
    pub const FILE_END: u32 = 16777216;

    // The least count of slots that holds a head and this many bytes.
    pub fn slots(length: u32) -> usize
        ensures { result ≡ slots_of length }
    {
        (Ring::HEAD + length as usize).div_ceil(Ring::SLOT)
    }
}

// The N bytes at p. A number in them is what `from_le_bytes` of its type reads (proofs/Numbers, `le2`, `le4` and `le8`).
pub fn array_at<const N: usize>(bytes: &[u8], p: usize) -> [u8; N]
    requires { p + N ≤ length bytes.now }
    ensures { result ≡ bytes_at (flat bytes.now) p N }
{
    let mut array = [0; N];
    array.copy_from_slice(&bytes[p..p + N]);
    array
}

// Whether the count bytes at p are zero. It looks at all of them: without a way out the compiler takes many bytes at once, and
// a walk is several times faster (docs/DECISIONS.md, 54).
pub fn zeros_at(bytes: &[u8], p: usize, count: usize) -> bool
    requires { p + count ≤ length bytes.now }
    ensures { result ≡ zeros_at (flat bytes.now) p count }
{
    let mut clear = true;
    for byte in &bytes[p..p + count] {
        if *byte != 0 {
            clear = false;
        }
    }
    clear
}

// p turned round at n. Most places are below it already, and then nothing is divided: a walk would divide twice for each entry.
pub fn around(p: usize, n: usize) -> usize
    requires { 0 < n }
    ensures { result ≡ p % n }
{
    if p < n {
        return p;
    }
    p % n
}

// The byte of the buffer where a run of count bytes at place p of n slots begins, and how many of them stand before
// the ring's end. The rest begins at slot 0.
fn run_at(n: usize, p: usize, count: usize) -> (usize, usize)
    requires { (fewest_slots ≤ n) × (n ≤ most_slots) }
    ensures start { result.0 ≡ header_size + (p % span_of n) }
    ensures left { result.1 ≡ min count (span_of n - (p % span_of n)) }
{
    let span = n * Ring::SLOT;
    let turned = around(p, span);
    (Ring::HEADER + turned, count.min(span - turned))
}

// Copies src over as many bytes. A loop, since the library's copy is one that may overlap: for that the archive for C would want `memmove` from its
// host beside `memcpy` and `memset`.
fn copy(out: &mut [u8], src: &[u8])
    requires { length out.old ≡ length src.now }
    ensures { out.new ≡ src.now }
{
    for i in 0..src.len() {
        out[i] = src[i];
    }
}

// The slots of a ring's bytes, n of them, read round the end.
#[derive(Clone, Copy)]
pub struct Slots<'a> {
    pub bytes: &'a [u8],
    pub n: usize,
    pub ghost sized: { Sized bytes.now n },
}

impl Slots<'_> {
    // The byte at place p, round the end.
    #[tactic(auto, unfolding(crate::specs::Bytes::round))]
    pub fn byte(&self, p: usize) -> u8
        ensures { result ≡ round self.now.bytes.now self.now.n p }
    {
        let span = self.n * Ring::SLOT;
        self.bytes[Ring::HEADER + around(p, span)]
    }

    // Copies out the bytes at place p, round the end, until the lent part is full: up to the ring's end, and then the rest.
    pub fn take(&self, p: usize, out: &mut [u8])
        requires { p + length out.old ≤ span_of self.now.n + span_of self.now.n }
        ensures { out.new ≡ bytes_at (round self.now.bytes.now self.now.n) p (length out.old) }
    {
        let (start, left) = run_at(self.n, p, out.len());
        let rest = out.len() - left;
        copy(&mut out[..left], &self.bytes[start..start + left]);
        copy(
            &mut out[left..],
            &self.bytes[Ring::HEADER..Ring::HEADER + rest],
        );
    }
}

// Stores src at place p of n slots, round the end: up to the ring's end, and then the rest.
// No view of slots to store in stands beside `Slots`: it would hold a lent `&mut`, of which each clause says `.now` twice, and only five functions store.
pub fn put_bytes(bytes: &mut [u8], n: usize, p: usize, src: &[u8])
    requires sized { Sized bytes.old n }
    requires p_bound { (p ≤ span_of n + span_of n) × (length src.now ≤ span_of n) }
    ensures { bytes.new ≡ put bytes.old n p src.now }
{
    let (start, left) = run_at(n, p, src.len());
    let rest = src.len() - left;
    copy(&mut bytes[start..start + left], &src[..left]);
    copy(&mut bytes[Ring::HEADER..Ring::HEADER + rest], &src[left..]);
}

// Stores count zeros at place p of n slots, round the end. Not `put_bytes` of zeros: those would have to lie somewhere, as many as a ring has bytes.
pub fn put_zeros(bytes: &mut [u8], n: usize, p: usize, count: usize)
    requires sized { Sized bytes.old n }
    requires p_bound { (p ≤ span_of n + span_of n) × (count ≤ span_of n) }
    ensures { bytes.new ≡ put bytes.old n p (replicate count 0) }
{
    let (start, left) = run_at(n, p, count);
    bytes[start..start + left].fill(0);
    bytes[Ring::HEADER..Ring::HEADER + (count - left)].fill(0);
}
