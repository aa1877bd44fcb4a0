// Text put into a lent buffer: bytes, decimal numbers, and a number with the byte after it. Each function answers every argument: where
// there is no room for the whole text, nothing is written and the place is handed back.
#![tactic(auto)]

mod bytes;
mod decimal;

pub use bytes::{has_room, put_bytes};
pub use decimal::{put_decimal, put_field};
