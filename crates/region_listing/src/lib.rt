// The listing of an archive as text.
#![tactic(auto)]

mod collection;
mod counts;
mod listing;

pub use listing::{Text, list_archive};
