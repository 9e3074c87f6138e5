// The picture of a ring: a cell for each slot, a letter for each node, and the pins.
ghost use Rattle.std.specs.Prelude.{◌≡◌};
ghost use Rattle.looks.specs.Looked.{show_answer};

use crate::answer::Refusal;
use crate::output::Out;
use arrayvec::ArrayVec;
use judge::Judged;
use layout::Ring;
use state::{FLUSHED, Held, IN_FLIGHT, State};
use std::fmt;

// How many nodes get a letter.
const LETTERS: usize = 52;

// The nodes that have a letter, in the letters' order.
type Legend = ArrayVec<u32, LETTERS>;

// What is shown of a slot.
#[derive(Clone, Copy)]
struct Cell {
    letter: char,
    sign: char,
}

const FREE: Cell = Cell {
    letter: '.',
    sign: '.',
};

impl fmt::Display for Cell {
    fn fmt<W: fmt::Write>(&self, f: &mut fmt::Formatter<W>) -> fmt::Result {
        let Cell { letter, sign } = self;
        write!(f, " {letter}{sign}")
    }
}

// ---- letters and signs

fn legend_of(held: &[Held]) -> Legend {
    let mut legend = Legend::new();
    for one in held {
        let node = one.entry.node;
        if !legend.as_slice().contains(&node) {
            // Where no letter is left, the node has none.
            let _ = legend.try_push(node);
        }
    }
    legend
}

fn letter(place: usize) -> char {
    match place {
        0..26 => char::from(b'A' + place as u8),
        26..LETTERS => char::from(b'a' + (place - 26) as u8),
        _ => '*',
    }
}

fn letter_of(legend: &Legend, node: u32) -> char {
    legend
        .as_slice()
        .iter()
        .position(|one| *one == node)
        .map_or('*', letter)
}

fn sign_of(phase: u8) -> char {
    match phase {
        IN_FLIGHT => '>',
        FLUSHED => '=',
        _ => '-',
    }
}

// ---- cells

// Marks the slots that a held write takes: from its own to the last, and on from the first.
fn mark(cells: &mut [Cell], held: &Held, letter: char) {
    let sign = sign_of(held.phase);
    let slots = Ring::slots(held.entry.length);
    let Some((before, from)) = cells.split_at_mut_checked(held.entry.slot as usize) else {
        return;
    };
    for cell in from.iter_mut().chain(before).take(slots) {
        *cell = Cell { letter, sign };
    }
}

fn mark_all(cells: &mut [Cell], held: &[Held], legend: &Legend) {
    for one in held {
        mark(cells, one, letter_of(legend, one.entry.node));
    }
}

// At each sixteenth slot a line begins, with the slot's place in three columns.
fn say_cells(out: &mut Out, cells: &[Cell]) {
    for (slot, cell) in cells.iter().enumerate() {
        if slot % 16 == 0 {
            out.say(if slot == 0 { "  " } else { "\n  " });
            out.say(format_args!("{slot:3}"));
        }
        out.say(*cell);
    }
    out.say("\n");
}

// ---- the lines around the cells

fn say_head(out: &mut Out, ring: Ring, s: &State) {
    out.say(format_args!("ok {} slots, {} used, next {}", ring.n, ring.used, s.next));
    if s.flush != 0 {
        out.say(format_args!(", flush {} out", s.flush));
    }
    out.say("\n");
}

fn say_legend(out: &mut Out, legend: &Legend) {
    for (place, node) in legend.as_slice().iter().enumerate() {
        out.say(format_args!("  {} is node {node}\n", letter(place)));
    }
}

fn say_pins(out: &mut Out, s: &State) {
    for pin in s.pins {
        if pin.number != 0 {
            out.say(format_args!("  pin {} from {} for ", pin.number, pin.mark));
            match pin.node {
                0 => out.say("all\n"),
                node => out.say(format_args!("node {node}\n")),
            }
        }
    }
}

// ---- the picture

fn say_picture(out: &mut Out, judged: &Judged, s: &State) {
    let ring = judged.ring;
    let held = judged.held.as_slice();
    let legend = legend_of(held);
    let mut cells = [FREE; Ring::MOST];
    let cells = &mut cells[..ring.n.min(Ring::MOST)];
    mark_all(cells, held, &legend);
    say_head(out, ring, s);
    say_cells(out, cells);
    say_legend(out, &legend);
    say_pins(out, s);
}

// Says what a ring looks like, unless it or the state is refused.
pub fn say_show(out: &mut Out, bytes: &[u8], s: &State) -> Result<(), Refusal>
    ensures { result ≡ show_answer bytes.now s.now }
{
    judge::judge(bytes, s)?;
    say_show_or_refusal(out, bytes, s);
    Ok(())
}

// Says what a ring looks like, or that it or the state is refused.
pub fn say_show_or_refusal(out: &mut Out, bytes: &[u8], s: &State) {
    match judge::judge(bytes, s) {
        Ok(judged) => say_picture(out, &judged, s),
        Err(why) => out.say_refused(why),
    }
}
