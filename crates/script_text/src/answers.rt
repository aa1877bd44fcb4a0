// What a call answered, as text.
use region_graph::refusals::Refusal;
use std::fmt;

// An answer: 0 and what the call gave, or the number of its refusal and `-`.
#[derive(Clone, Copy)]
pub struct Answer<T>(pub Result<T, Refusal>);

impl<T: fmt::Display> fmt::Display for Answer<T> {
    fn fmt<W: fmt::Write>(&self, f: &mut fmt::Formatter<W>) -> fmt::Result {
        match &self.0 {
            Ok(value) => write!(f, "0 {value}"),
            Err(refusal) => {
                let number = refusal.number();
                write!(f, "{number} -")
            }
        }
    }
}
