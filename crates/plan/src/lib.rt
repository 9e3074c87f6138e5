// A plan: the stores that a call makes in a ring, as numbers, which a host may keep while it makes them one by one; and the one function that makes one.
// Document 02, Q-8. A plan changes nothing by itself. A step looks at the header, and stores one slot or one byte.
#![tactic(auto)]

ghost use Rattle.std.specs.Prelude.{◌≡◌, [], ◌≤◌, ◌<◌, length};
ghost use Rattle.layout.specs.Sizes.{most_slots, slots_of};
ghost use Rattle.walk.specs.Header.{header_of};
ghost use Rattle.store.specs.Steps.{run_step};
ghost use Rattle.store.specs.Store.{pick_bytes};
ghost use Rattle.store.specs.Storing.{head_step, store_step};
ghost use Rattle.plan.specs.Plan.{
  no_plan,
  head_count,
  step_count,
  head_waits,
  store_waits,
  step_ring,
  span_of,
  pick_stepped,
  step_answer,
  stepped,
};

use layout::Ring;
use reason::Reason;
use store::step;
use walk::Entry;

// First the head byte, where the head moves; then the entry, where there is one.
#[repr(C)]
#[derive(Clone, Copy, Default)]
pub struct Plan {
    // N of the ring that it was made for.
    pub n: usize,
    // The head slot before, and the one after.
    pub from: usize,
    pub head: usize,
    // The entry that is stored; its number is 0 where none is (`step_count`, `store_part`): a plan is plain numbers, which a host keeps.
    pub entry: Entry,
}

// Bytes of a ring: where they begin, and how many.
#[derive(Clone, Copy)]
pub struct Span {
    pub place: usize,
    pub length: usize,
}

// The plan of a call that stores nothing.
pub fn no_plan() -> Plan
    ensures { result ≡ no_plan }
{
    Plan::default()
}

// How many steps move the head: one or none.
fn head_count(plan: Plan) -> usize
    ensures { result ≡ head_count plan }
{
    if plan.from == plan.head {
        return 0;
    }
    1
}

// How many steps there are.
pub fn count(plan: Plan) -> usize
    ensures { result ≡ step_count plan }
{
    let entry = plan.entry;
    let heads = head_count(plan);
    if entry.number == 0 {
        return heads;
    }
    heads + (Ring::slots(entry.length) + 1)
}

// Whether the head byte may be stored.
fn head_waits(bytes: &[u8], plan: Plan) -> bool
    ensures { result ≡ head_waits plan (header_of bytes.now) }
{
    let Some(ring) = walk::header_of(bytes) else {
        return false;
    };
    if ring.n != plan.n {
        return false;
    }
    if ring.head != plan.from {
        return false;
    }
    if plan.n <= plan.head {
        return false;
    }
    true
}

// Whether the entry may be stored, with those bytes.
fn store_waits(bytes: &[u8], plan: Plan, src: &[u8]) -> bool
    ensures { result ≡ store_waits plan (length src.now) (header_of bytes.now) }
{
    let entry = plan.entry;
    let Some(ring) = walk::header_of(bytes) else {
        return false;
    };
    if ring.n != plan.n {
        return false;
    }
    if src.len() != entry.length as usize {
        return false;
    }
    if Ring::LARGEST < entry.length {
        return false;
    }
    if layout::around(ring.head + ring.used, ring.n) != entry.slot as usize {
        return false;
    }
    if ring.n <= ring.used + Ring::slots(entry.length) {
        return false;
    }
    true
}

// Stores the head byte.
fn step_head(bytes: &mut [u8], plan: Plan) -> Result<Span, Reason>
    ensures answer { result ≡ pick_stepped (head_waits plan (header_of bytes.old)) (span_of (head_step plan.head)) }
    ensures bytes { bytes.new ≡ pick_bytes (head_waits plan (header_of bytes.old)) (run_step bytes.old (head_step plan.head)) bytes.old }
{
    if !head_waits(bytes, plan) {
        return Err(Reason::StateUnfit);
    }
    step::put_byte(bytes, 2, plan.head as u8);
    Ok(Span {
        place: 2,
        length: 1,
    })
}

// The bytes that step j of storing an entry stores: a slot, or the tail byte.
fn span_at(n: usize, entry: Entry, j: usize) -> Span
    requires { (0 < n) × (n ≤ most_slots) × (j ≤ slots_of entry.length) }
    ensures { result ≡ span_of (store_step n entry [] j) }
{
    if j == Ring::slots(entry.length) {
        return Span {
            place: 3,
            length: 1,
        };
    }
    let slot = layout::around(entry.slot as usize + j, n);
    Span {
        place: Ring::HEADER + slot * Ring::SLOT,
        length: Ring::SLOT,
    }
}

// Makes step j of storing the entry.
fn step_entry(bytes: &mut [u8], plan: Plan, src: &[u8], j: usize) -> Result<Span, Reason>
    requires { j ≤ slots_of plan.entry.length }
    ensures answer { result ≡ pick_stepped (store_waits plan (length src.now) (header_of bytes.old)) (span_of (store_step plan.n plan.entry [] j)) }
    ensures bytes { bytes.new ≡ pick_bytes (store_waits plan (length src.now) (header_of bytes.old)) (run_step bytes.old (store_step plan.n plan.entry src.now j)) bytes.old }
{
    let entry = plan.entry;
    let n = plan.n;
    if !store_waits(bytes, plan, src) {
        return Err(Reason::StateUnfit);
    }
    step::store_step(bytes, n, entry, src, j);
    Ok(span_at(n, entry, j))
}

// Makes step i of a plan, counted from 0: one store. A host names the step by its number (`step_answer`), so no function is handed out for it.
pub fn make_step(bytes: &mut [u8], plan: Plan, src: &[u8], i: usize) -> Result<Span, Reason>
    ensures answer { result ≡ step_answer plan src.now i bytes.old }
    ensures bytes { bytes.new ≡ step_ring plan src.now i bytes.old }
{
    let heads = head_count(plan);
    if i < heads {
        return step_head(bytes, plan);
    }
    if count(plan) <= i {
        return Err(Reason::StateUnfit);
    }
    step_entry(bytes, plan, src, i - heads)
}

// Makes the first steps of a plan, so many, in order.
pub fn run_to(bytes: &mut [u8], plan: Plan, src: &[u8], steps: usize)
    ensures { bytes.new ≡ stepped plan src.now steps bytes.old }
{
    for i in 0..steps {
        // One that doesn't fit stores nothing.
        let _ = make_step(bytes, plan, src, i);
    }
}

// Makes all steps of a plan, in order.
pub fn run(bytes: &mut [u8], plan: Plan, src: &[u8])
    ensures { bytes.new ≡ stepped plan src.now (step_count plan) bytes.old }
{
    run_to(bytes, plan, src, count(plan));
}
