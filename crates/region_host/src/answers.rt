// What a call answers, as one number for C.
ghost use Rattle.std.specs.Prelude.{◌≡◌, ℕ};
ghost use Rattle.region_graph.specs.Refusals.{refusal_number, answer_number};
ghost use Rattle.region_archive.specs.Promise.{query_number};
ghost use Rattle.region_host.specs.CNumbers.{negative, routed_by, kept_by, written_by, routed_value, kept_value, written_value};
ghost use Rattle.region_host.specs.Reading.{place_value};

use region_archive::{HIDDEN, SEEN};
use region_graph::refusals::Refusal;

// The number of a changing call: 0, or that of its refusal.
pub fn call_number(answer: Result<(), Refusal>) -> u32
    ensures { result ≡ answer_number answer }
{
    match answer {
        Ok(()) => 0,
        Err(refusal) => refusal.number(),
    }
}

// A number below zero, in two's complement.
pub fn negative(number: u32) -> u64
    ensures { result ≡ negative number }
{
    u64::from(number).wrapping_neg()
}

// Why a call was refused, for C: what has a number.
pub trait Numbered: Copy {
    ghost number_of: { Self → ℕ };

    fn number(self) -> u32
        ensures { result ≡ number_of self };
}

impl Numbered for Refusal {
    ghost number_of = { refusal_number };

    fn number(self) -> u32 {
        Refusal::number(self)
    }
}

// A number alone: any one, too, that no question has.
impl Numbered for u32 {
    ghost number_of = { λ n. n };

    fn number(self) -> u32 {
        self
    }
}

// The count of connections of a route.
pub fn routed_value<N: Numbered>(answer: Result<Option<usize>, N>) -> u64
    ensures { result ≡ routed_value (routed_by N.number_of answer) }
{
    match answer {
        Ok(None) => negative(HIDDEN),
        Ok(Some(count)) => count as u64,
        Err(refusal) => negative(refusal.number()),
    }
}

// The count of a hook, of a write or of a conversion.
pub fn count_value<N: Numbered>(answer: Result<usize, N>) -> u64
    ensures hook { result ≡ kept_value (kept_by N.number_of answer) }
    ensures writer { result ≡ written_value (written_by N.number_of answer) }
{
    match answer {
        Ok(count) => count as u64,
        Err(refusal) => negative(refusal.number()),
    }
}

// The region of a bundle, where there is one.
pub fn place_value(region: Option<u32>) -> u64
    ensures { result ≡ place_value region }
{
    match region {
        Some(region) => u64::from(region),
        None => negative(Refusal::NotInstalled.number()),
    }
}

// Whether an item is seen in the graph of an archive.
pub fn query_value(answer: Result<bool, Refusal>) -> u32
    ensures { result ≡ query_number answer }
{
    match answer {
        Ok(true) => SEEN,
        Ok(false) => HIDDEN,
        Err(refusal) => refusal.number(),
    }
}
