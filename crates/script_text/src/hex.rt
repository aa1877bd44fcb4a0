// Bytes as text in hex.
ghost use Rattle.std.specs.Prelude.{◌≡◌, ◌≤◌, length, take, vec_len, OnErr};

use std::alloc::AllocError;
use std::fmt;

// Puts the bytes of a text at the start of `bytes`, as many as have room, and hands back how many they are. What is no digit is passed
// over, and so is a last digit that has none beside it.
pub fn put_hex(bytes: &mut [u8], text: &[u8]) -> usize
    ensures { result ≤ length bytes.old }
{
    let mut digits = text
        .iter()
        .filter_map(|byte| char::from(*byte).to_digit(16));
    for (count, byte) in bytes.iter_mut().enumerate() {
        let (Some(high), Some(low)) = (digits.next(), digits.next()) else {
            return count;
        };
        *byte = (high * 16 + low) as u8;
    }
    bytes.len()
}

// Adds the bytes of a text to `bytes`, as many as have room where it has so many places.
pub fn append_hex(bytes: &mut Vec<u8>, text: &[u8], room: usize) -> Result<(), AllocError>
    ensures room { vec_len bytes.old ≤ room → vec_len bytes.new ≤ room }
    ensures kept { take (vec_len bytes.old) bytes.new.items ≡ bytes.old.items }
    ensures err { OnErr result (bytes.new.items ≡ bytes.old.items) }
{
    let start = bytes.len();
    let most = room.saturating_sub(start).min(text.len() / 2);
    bytes.resize(start + most, 0)?;
    let count = put_hex(&mut bytes[start..], text);
    bytes.truncate(start + count);
    Ok(())
}

// Bytes as an answer has them: in hex, or `-` where there are none.
#[derive(Clone, Copy)]
pub struct Hex<'a>(pub &'a [u8]);

impl fmt::Display for Hex<'_> {
    fn fmt<W: fmt::Write>(&self, f: &mut fmt::Formatter<W>) -> fmt::Result {
        if self.0.is_empty() {
            return f.write_str("-");
        }
        for byte in self.0 {
            write!(f, "{byte:02x}")?;
        }
        Ok(())
    }
}
