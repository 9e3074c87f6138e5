// The bench: reads a script of calls, makes them, and prints what they answer (docs/SCRIPT.md). The program is thin: lines are told by
// `script` and `command`, and every call is the library's.
#![tactic(auto)]

mod call;
mod damage;
mod reading;
mod run;

use looks::output::Out;
use reading::Script;
use run::Bench;
use std::io;

fn main(rt: HostRuntime) -> io::Result<()> {
    let mut bench = Bench::new(Out::new(rt.stdout()));
    let read = Script::new(rt.stdin()).run(&mut bench);
    let written = bench.finish();
    read.and(written)
}
