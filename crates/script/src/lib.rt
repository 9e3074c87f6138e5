// The bench script (docs/SCRIPT.md): its lines, words, numbers and bytes, and the sum that it asks for, over byte slices. Nothing here reads or writes a file.
// Each function takes any bytes. A word is found by a pass over the line up to it; a sum is one pass.
#![tactic(auto)]

pub mod bytes;
pub mod line;
pub mod sum;
pub mod word;
