// The looks that a script takes at ring, buffer and state.
ghost use Rattle.std.specs.Prelude.{◌≡◌};
ghost use Rattle.looks.specs.Looked.{bytes_in, look_answer};

use crate::answer::Refusal;
use crate::output::Out;
use crate::show;
use command::{Look, Store};
use script::sum;
use state::State;

fn say_listed(out: &mut Out, s: &State) {
    for one in s.writes.iter().take(s.count) {
        out.say(format_args!(" {}:{}", one.number, one.phase));
    }
}

// The picture has a `say_pins` of its own (show.rt): what is said of a pin is all that there is to either.
fn say_pins(out: &mut Out, s: &State) {
    for (place, pin) in s.pins.iter().enumerate() {
        if pin.number != 0 {
            out.say(format_args!(" {place}:{}:{}:{}", pin.number, pin.mark, pin.node));
        }
    }
}

fn say_state(out: &mut Out, s: &State) {
    out.say(format_args!("ok {} {} {} w", s.next, s.flush, s.count));
    say_listed(out, s);
    out.say(" p");
    say_pins(out, s);
    out.say("\n");
}

fn bytes_of<'a>(of: Store, ring: &'a [u8], buffer: &'a [u8]) -> &'a [u8]
    ensures { result.now ≡ bytes_in of ring.now buffer.now }
{
    match of {
        Store::Ring => ring,
        Store::Buffer => buffer,
    }
}

// Says a part of some bytes; where there is no such part, the line of that number is no command.
fn say_part(out: &mut Out, line: u64, part: Option<&[u8]>) {
    match part {
        Some(part) => {
            out.say("ok ");
            out.say_bytes(part);
            out.say("\n");
        }
        None => out.say_refusal(Refusal::NoCommand, line),
    }
}

// Says what a look shows, unless it is at bytes that aren't there or shows a ring that is refused.
#[tactic(auto, using(crate::proofs::Looking::part_found, crate::proofs::Looking::part_missing))]
pub fn say_look(
    out: &mut Out,
    look: Look,
    ring: &[u8],
    buffer: &[u8],
    s: &State,
) -> Result<(), Refusal>
    ensures { result ≡ look_answer look ring.now buffer.now s.now }
{
    match look {
        Look::Part { of, from, to } => {
            bytes_of(of, ring, buffer)
                .get(from..to)
                .ok_or(Refusal::NoCommand)?;
        }
        Look::Sum { .. } | Look::State => {}
        Look::Show => return show::say_show(out, ring, s),
    }
    // A line is named in a refusal alone, and nothing is refused any more.
    say_look_or_refusal(out, 0, look, ring, buffer, s);
    Ok(())
}

// Says what a look shows, or why it shows nothing, for the line of that number.
pub fn say_look_or_refusal(
    out: &mut Out,
    line: u64,
    look: Look,
    ring: &[u8],
    buffer: &[u8],
    s: &State,
) {
    match look {
        Look::Part { of, from, to } => {
            say_part(out, line, bytes_of(of, ring, buffer).get(from..to));
        }
        Look::Sum { of } => {
            let sum = sum::sum_of(bytes_of(of, ring, buffer));
            out.say(format_args!("ok {sum:08X}\n"));
        }
        Look::State => say_state(out, s),
        Look::Show => show::say_show_or_refusal(out, ring, s),
    }
}
