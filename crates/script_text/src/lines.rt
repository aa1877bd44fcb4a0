// The lines of a script. A line has words with a space between two. A word is told by how many words are before it.

// A word of a line; empty where the line has not so many.
pub fn word(line: &[u8], before: usize) -> &[u8] {
    line.split(|byte| *byte == b' ')
        .nth(before)
        .unwrap_or_default()
}

// The number with one digit more; a byte that is no digit, and a digit past 32 bits, leave it.
fn with_digit(number: u32, byte: u8) -> u32 {
    char::from(byte)
        .to_digit(10)
        .and_then(|digit| number.checked_mul(10)?.checked_add(digit))
        .unwrap_or(number)
}

pub fn number(text: &[u8]) -> u32 {
    text.iter()
        .fold(0, |number, byte| with_digit(number, *byte))
}

// The number that a word of a line is.
pub fn value(line: &[u8], before: usize) -> u32 {
    number(word(line, before))
}

// The version that a number stands for: what its lowest 16 bits are.
pub fn version_of(number: u32) -> u16 {
    (number % 65536) as u16
}

// The version that a word of a line is.
pub fn version(line: &[u8], before: usize) -> u16 {
    version_of(value(line, before))
}

// Whether a line has bytes: it starts with a digit of base 16, 0 to 9 or A to F.
pub fn has_bytes(line: &[u8]) -> bool {
    matches!(line.first(), Some(b'0'..=b'9' | b'A'..=b'F'))
}
