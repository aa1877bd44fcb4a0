// The text of scripts and of answers: lines with words, numbers, and bytes in hex.
#![tactic(auto)]

mod answers;
mod hex;
mod lines;

pub use answers::Answer;
pub use hex::{Hex, append_hex, put_hex};
pub use lines::{has_bytes, number, value, version, version_of, word};
