// The entries of a sheet, at a place.
ghost use Rattle.std.specs.Prelude.{◌≤◌, length};
ghost use Rattle.name_sheet.specs.Reading.{TextRead, EntryRead};

use crate::{FIELDS, GREATEST_KIND, LONGEST_NAME};
use big_endian::number_at;

// The kind and the number of an entry that stands at a place, and the place after it.
#[derive(Clone, Copy)]
pub struct EntryAt {
    pub kind: u32,
    pub number: u32,
    pub next: usize,
}

// Whether each byte of a text is one that a name may have. It does not stop at the first that is none, so that several are compared at once.
fn is_text(text: &[u8]) -> bool
    ensures { TextRead text.now result }
{
    let mut printable = true;
    for byte in text {
        printable &= (0x20..=0x7E).contains(byte);
    }
    printable
}

// The entry at a place.
pub fn entry_at(bytes: &[u8], at: usize) -> Option<EntryAt>
    requires { at ≤ length bytes.now }
    ensures { EntryRead bytes.now at result }
{
    let size = number_at(bytes, at, 2)?;
    let count = size.value as usize;
    if count <= FIELDS || FIELDS + LONGEST_NAME < count || bytes.len() - size.next < count {
        return None;
    }
    let kind = number_at(bytes, size.next, 1)?;
    let number = number_at(bytes, kind.next, 4)?;
    let end = size.next + count;
    if GREATEST_KIND < kind.value || !is_text(&bytes[number.next..end]) {
        return None;
    }
    Some(EntryAt {
        kind: kind.value,
        number: number.value,
        next: end,
    })
}
