// Big-endian numbers written at a place of a buffer, bytes that count, and the low half of a number.
ghost use Rattle.std.specs.Prelude.{◌≡◌, ◌+◌, ◌%◌, ◌^◌, ◌<◌, ◌≤◌, length};
ghost use Rattle.text_lines.specs.Written.{WrittenAt};
ghost use Rattle.big_endian.specs.Bytes.{big};
ghost use Rattle.big_endian.specs.Parsing.{Answer};

use big_endian::{At, number_at};

// Writes the low bytes of a number, the last one first; hands back the place after them.
pub fn put_number(buffer: &mut [u8], at: usize, width: usize, number: usize) -> usize
    requires { at + width ≤ length buffer.old }
    ensures { WrittenAt buffer.old buffer.new at (big width number) result }
{
    let mut rest = number;
    for left in (0..width).rev() {
        buffer[at + left] = (rest % 256) as u8;
        rest /= 256;
    }
    at + width
}

// The same for an element of a list. A call with the width as a constant writes all its bytes at once.
pub fn put_element(buffer: &mut [u8], at: usize, width: usize, number: usize) -> usize
    requires { at + width ≤ length buffer.old }
    ensures { WrittenAt buffer.old buffer.new at (big width number) result }
{
    match width {
        4 => put_number(buffer, at, 4, number),
        6 => put_number(buffer, at, 6, number),
        8 => put_number(buffer, at, 8, number),
        _ => put_number(buffer, at, width, number),
    }
}

// The byte at a place, where it counts at most so many.
pub fn count_at(bytes: &[u8], at: usize, most: usize) -> Option<At<usize>>
    requires { (at ≤ length bytes.now) × (most < 256) }
    ensures { Answer (λ n. n ≤ most) (big 1) bytes.now at result }
{
    let count = number_at(bytes, at, 1)?;
    let value = count.value as usize;
    if most < value {
        return None;
    }
    Some(At {
        value,
        next: count.next,
    })
}

// The low 32 bits of a number: they are taken first, since a cast that may lose bits is refused.
pub fn low_word(number: u64) -> u32
    ensures { result ≡ number % 2 ^ 32 }
{
    (number % 4294967296) as u32
}
