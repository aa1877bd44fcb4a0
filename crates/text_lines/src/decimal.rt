// Numbers of 32 bits as decimal text.
ghost use Rattle.std.specs.Prelude.{◌≡◌, ◌+◌, ◌≤◌, length};
ghost use Rattle.text_lines.specs.Decimal.{digit_count, most_digits, «last_digits», decimal, decimal_field};
ghost use Rattle.text_lines.specs.Outcome.{put, put_outcome};
ghost use Rattle.text_lines.specs.Written.{WrittenAt};

use crate::bytes::has_room;

// How many digits a number has.
fn digits(number: u32) -> usize
    ensures { result ≡ digit_count most_digits number }
{
    number.max(1).ilog10() as usize + 1
}

// Writes the last digits of a number, the last one first. A digit is taken before it is cast: a cast that may lose bits is refused.
fn put_digits(buffer: &mut [u8], at: usize, width: usize, number: u32)
    requires { at + width ≤ length buffer.old }
    ensures { WrittenAt buffer.old buffer.new at (last_digits width number) (at + width) }
{
    let mut rest = number;
    for left in (0..width).rev() {
        buffer[at + left] = (rest % 10) as u8 + b'0';
        rest /= 10;
    }
}

// Writes a number; hands back the place after it.
pub fn put_decimal(buffer: &mut [u8], at: usize, number: u32) -> usize
    ensures { put result buffer.new ≡ put_outcome buffer.old at (decimal number) }
{
    let width = digits(number);
    if !has_room(buffer.len(), at, width) {
        return at;
    }
    put_digits(buffer, at, width, number);
    at + width
}

// Writes a number and the byte after it, or nothing; hands back the place after that byte. Two calls could write the number alone.
pub fn put_field(buffer: &mut [u8], at: usize, number: u32, end: u8) -> usize
    ensures { put result buffer.new ≡ put_outcome buffer.old at (decimal_field number end) }
{
    let width = digits(number);
    if !has_room(buffer.len(), at, width + 1) {
        return at;
    }
    put_digits(buffer, at, width, number);
    buffer[at + width] = end;
    at + width + 1
}
