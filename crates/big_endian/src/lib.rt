// Big-endian numbers of up to 8 bytes at a place of a buffer.
#![tactic(auto)]

ghost use Rattle.std.specs.Prelude.{◌<◌, ◌≤◌, ◌^◌, ◌≡◌, length};
ghost use Rattle.big_endian.specs.Bytes.{big};
ghost use Rattle.big_endian.specs.Numbers.{longest, LongRead, NumberRead};

// The most bytes of a number, and of one in 32 bits.
const LONGEST: usize = 8;

const WIDEST: usize = 4;

// A value that stands at a place, and the place after it.
#[derive(Clone, Copy)]
pub struct At<T> {
    pub value: T,
    pub next: usize,
}

// The number that bytes give.
fn number_of(bytes: &[u8]) -> u64
    requires { length bytes.now ≤ longest }
    ensures small { result < 256 ^ length bytes.now }
    ensures bytes { big (length bytes.now) result ≡ bytes.now }
{
    let mut number: u64 = 0;
    for byte in bytes {
        number = number * 256 + u64::from(*byte);
    }
    number
}

// The number of a width that stands at a place.
pub fn long_at(bytes: &[u8], at: usize, width: usize) -> Option<At<u64>>
    ensures { LongRead bytes.now at width result }
{
    if LONGEST < width {
        return None;
    }
    let digits = bytes.get(at..)?.get(..width)?;
    Some(At {
        value: number_of(digits),
        next: at + width,
    })
}

// The same for a number in 32 bits, which the cast is proved to fit.
pub fn number_at(bytes: &[u8], at: usize, width: usize) -> Option<At<u32>>
    ensures { NumberRead bytes.now at width result }
{
    if WIDEST < width {
        return None;
    }
    let read = long_at(bytes, at, width)?;
    Some(At {
        value: read.value as u32,
        next: read.next,
    })
}
