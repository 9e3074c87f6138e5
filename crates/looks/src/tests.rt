// What a look answers and says, with each way in which it is refused (docs/SCRIPT.md, "To look"). No contract tells
// what is said.
use crate::answer::Refusal;
use crate::look::{say_look, say_look_or_refusal};
use crate::output::Out;
use crate::show::{say_show, say_show_or_refusal};
use command::{Look, Store};
use reason::Reason;

const LENGTH: usize = 16 + 18 * 256;

// An empty ring of 18 slots (docs/FORMAT.md).
fn empty_ring() -> [u8; LENGTH] {
    let mut ring = [0; LENGTH];
    ring[0] = 1;
    ring[1] = 18;
    ring
}

// The picture of it, with the state that an empty ring has.
const PICTURE: &str =
    "ok 18 slots, 0 used, next 1\n    0 .. .. .. .. .. .. .. .. .. .. .. .. .. .. .. ..\n   16 .. ..\n";

fn part(of: Store, from: usize, to: usize) -> Look {
    Look::Part { of, from, to }
}

#[test]
fn a_part_is_shown(rt: HostRuntime) {
    let s = state::empty_state();
    let mut out = Out::new(rt.stdout());
    let at_ring = say_look(&mut out, part(Store::Ring, 1, 3), b"ABC", b"xyz", &s);
    assert!(rt; at_ring.is_ok());
    let at_buffer = say_look(&mut out, part(Store::Buffer, 0, 3), b"ABC", b"xyz", &s);
    assert!(rt; at_buffer.is_ok());
    let at_none = say_look(&mut out, part(Store::Buffer, 3, 3), b"ABC", b"xyz", &s);
    assert!(rt; at_none.is_ok());
    assert!(rt; out.has_said("ok 4243\nok 78797A\nok -\n"));
}

#[test]
fn a_part_that_is_not_there_is_no_command(rt: HostRuntime) {
    let s = state::empty_state();
    for (from, to) in [(0, 4), (4, 4), (2, 1), (usize::MAX, 0)] {
        let mut out = Out::new(rt.stdout());
        let look = part(Store::Ring, from, to);
        let answer = say_look(&mut out, look, b"ABC", b"wxyz", &s);
        assert!(rt; matches!(answer, Err(Refusal::NoCommand)));
        assert!(rt; out.has_said(""));
        say_look_or_refusal(&mut out, 7, look, b"ABC", b"wxyz", &s);
        assert!(rt; out.has_said("? 7\n"));
    }
}

#[test]
fn sums_and_states_are_shown(rt: HostRuntime) {
    let s = state::empty_state();
    let mut out = Out::new(rt.stdout());
    let ring = b"The quick brown fox jumps over the lazy dog";
    let buffer = b"123456789";
    for of in [Store::Ring, Store::Buffer] {
        let sum = say_look(&mut out, Look::Sum { of }, ring, buffer, &s);
        assert!(rt; sum.is_ok());
    }
    let state = say_look(&mut out, Look::State, b"", b"", &s);
    assert!(rt; state.is_ok());
    assert!(rt; out.has_said("ok 414FA339\nok CBF43926\nok 1 0 0 w p\n"));
}

#[test]
fn a_ring_is_shown(rt: HostRuntime) {
    let ring = empty_ring();
    let s = state::empty_state();
    let mut out = Out::new(rt.stdout());
    assert!(rt; say_show(&mut out, &ring, &s).is_ok());
    assert!(rt; out.has_said(PICTURE));
    let mut again = Out::new(rt.stdout());
    assert!(rt; say_look(&mut again, Look::Show, &ring, b"", &s).is_ok());
    assert!(rt; again.has_said(PICTURE));
    let mut third = Out::new(rt.stdout());
    say_show_or_refusal(&mut third, &ring, &s);
    assert!(rt; third.has_said(PICTURE));
}

#[test]
fn a_ring_that_is_refused_is_not_shown(rt: HostRuntime) {
    let s = state::empty_state();
    let mut out = Out::new(rt.stdout());
    let answer = say_show(&mut out, b"no ring", &s);
    assert!(rt; matches!(answer, Err(Refusal::Refused(Reason::Unreadable))));
    let looked = say_look(&mut out, Look::Show, b"no ring", b"", &s);
    assert!(rt; matches!(looked, Err(Refusal::Refused(Reason::Unreadable))));
    assert!(rt; out.has_said(""));
    say_show_or_refusal(&mut out, b"no ring", &s);
    say_look_or_refusal(&mut out, 7, Look::Show, b"no ring", b"", &s);
    assert!(rt; out.has_said("refused 8\nrefused 8\n"));
}

#[test]
fn a_state_that_does_not_fit_is_not_shown(rt: HostRuntime) {
    let ring = empty_ring();
    let mut s = state::empty_state();
    s.count = 1;
    let mut out = Out::new(rt.stdout());
    let answer = say_show(&mut out, &ring, &s);
    assert!(rt; matches!(answer, Err(Refusal::Refused(Reason::StateUnfit))));
    assert!(rt; out.has_said(""));
    say_show_or_refusal(&mut out, &ring, &s);
    assert!(rt; out.has_said("refused 12\n"));
}
