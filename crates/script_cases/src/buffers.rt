// The lists of a line, and the buffers that a call is lent, with their values before it.
ghost use Rattle.std.specs.Prelude.{◌≤◌, vec_len, IfOk};

use script_text::{number, version_of};
use std::alloc::{AllocError, Global};
use std::fmt;

// Room for the bytes of a call: more than the longest image has.
pub const ROOM: usize = 18432;

// Room for the numbers of a hook.
pub const PLACES: usize = 128;

// The value of each byte before a call.
const BEFORE: u8 = 0xA5;

// The value of the first place before a call, and that of the first place for a version. Each later place has one more.
const FIRST: u32 = 0xDEAD0000;

const FIRST_VERSION: u16 = 0xBE00;

// Bytes before a call: so many, or all that have room.
pub fn bytes(alloc: Global, count: usize) -> Result<Vec<u8>, AllocError> {
    vec![in alloc; BEFORE; ROOM.min(count)]
}

// Places before a call: so many, or all that have room.
pub fn places(alloc: Global, count: u32) -> Result<Vec<u32>, AllocError>
    ensures { IfOk result (λ places. vec_len places ≤ PLACES) }
{
    (FIRST..).take(PLACES.min(count as usize)).collect(alloc)
}

// The same of places for versions: a range of another type and start.
pub fn version_places(alloc: Global, count: u32) -> Result<Vec<u16>, AllocError>
    ensures { IfOk result (λ places. vec_len places ≤ PLACES) }
{
    (FIRST_VERSION..)
        .take(PLACES.min(count as usize))
        .collect(alloc)
}

// The numbers of a word, so many at most: those before its first part that does not end in a digit. There is a comma between two parts.
pub fn numbers(alloc: Global, word: &[u8], most: usize) -> Result<Vec<u32>, AllocError>
    ensures { IfOk result (λ numbers. vec_len numbers ≤ most) }
{
    word.split(|byte| *byte == b',')
        .take_while(|part| part.last().is_some_and(|byte| byte.is_ascii_digit()))
        .take(most)
        .map(number)
        .collect(alloc)
}

// The versions that the numbers of a word stand for, so many at most.
pub fn versions(alloc: Global, word: &[u8], most: usize) -> Result<Vec<u16>, AllocError>
    ensures { IfOk result (λ versions. vec_len versions ≤ most) }
{
    let numbers = numbers(alloc, word, most)?;
    numbers
        .iter()
        .map(|number| version_of(*number))
        .collect(alloc)
}

// Places as an answer has them: with a comma between two, or `-` where there are none.
#[derive(Clone, Copy)]
pub struct Listed<'a, T>(pub &'a [T]);

impl<T: fmt::Display> fmt::Display for Listed<'_, T> {
    fn fmt<W: fmt::Write>(&self, f: &mut fmt::Formatter<W>) -> fmt::Result {
        if self.0.is_empty() {
            return f.write_str("-");
        }
        for (i, place) in self.0.iter().enumerate() {
            if 0 < i {
                f.write_str(",")?;
            }
            write!(f, "{place}")?;
        }
        Ok(())
    }
}
