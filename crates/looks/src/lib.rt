// What the bench program prints (docs/SCRIPT.md): answers, looks at ring, buffer and state, and the picture of the ring.
// What is to be written waits in `output::Out`.
// Each function is one pass over what it prints.
#![tactic(auto)]

pub mod answer;
pub mod look;
pub mod output;
pub mod show;
#[cfg(test)]
mod tests;
