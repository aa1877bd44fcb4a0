// Looking up a name.
ghost use Rattle.std.specs.Prelude.{◌≡◌, ◌-◌};
ghost use Rattle.name_sheet.specs.Promise.{Locates, LooksUp, LooksUpPart};
ghost use Rattle.name_sheet.specs.Reading.{FrontRead, StartsAsSheet};

use crate::entries::entry_at;
use crate::{FRONT, HEAD, NUMBERS, VERSION};
use big_endian::number_at;
use region_graph::refusals::Refusal;

// Where a name stands in a sheet: from a place up to another.
#[derive(Clone, Copy, PartialEq, Eq, Debug)]
pub struct NamePlace {
    pub start: usize,
    pub end: usize,
}

impl NamePlace {
    // How many bytes the name has.
    pub fn len(self) -> usize
        ensures { result ≡ self.end - self.start }
    {
        self.end.saturating_sub(self.start)
    }
}

// Whether a sheet starts with the version and the length of the rest.
fn front(sheet: &[u8]) -> bool
    ensures { FrontRead sheet.now result }
{
    let (Some(version), Some(size)) = (number_at(sheet, 0, 1), number_at(sheet, 1, 4)) else {
        return false;
    };
    version.value == VERSION && size.value as usize == sheet.len() - FRONT
}

// Goes through the entries up to the end, or to the first byte that breaks the layout. The place moves by the length of each entry, which no
// range counts.
fn scan(sheet: &[u8], kind: u32, number: u32) -> Result<NamePlace, Refusal>
    requires { StartsAsSheet sheet.now }
    ensures { Locates sheet.now kind number result }
{
    let mut at = FRONT;
    let mut least: u64 = 0;
    let mut found = None;
    while at < sheet.len() {
        let entry = entry_at(sheet, at).ok_or(Refusal::BrokenSheet)?;
        let order = u64::from(entry.kind) * NUMBERS + u64::from(entry.number);
        if order < least {
            return Err(Refusal::BrokenSheet);
        }
        if entry.kind == kind && entry.number == number {
            found = found.or(Some(NamePlace {
                start: at + HEAD,
                end: entry.next,
            }));
        }
        at = entry.next;
        least = order + 1;
    }
    found.ok_or(Refusal::NoEntry)
}

// Where the name of a kind and number stands in a sheet. A kind is any number: one that is no kind's has no entry.
pub fn locate(sheet: &[u8], kind: u32, number: u32) -> Result<NamePlace, Refusal>
    ensures { Locates sheet.now kind number result }
{
    if !front(sheet) {
        return Err(Refusal::BrokenSheet);
    }
    scan(sheet, kind, number)
}

// The name of a kind and number, as the part of the sheet that holds it.
pub fn lookup(sheet: &[u8], kind: u32, number: u32) -> Result<&[u8], Refusal>
    ensures { LooksUp sheet.entry kind number result }
{
    let part = locate(sheet, kind, number)?;
    Ok(&sheet[part.start..part.end])
}

// The part of the sheet that holds a name, and the answer. Where a lookup is refused, the part is the empty one at the sheet's start.
pub fn lookup_part(sheet: &[u8], kind: u32, number: u32) -> (&[u8], Result<(), Refusal>)
    ensures { LooksUpPart sheet.entry kind number result }
{
    match locate(sheet, kind, number) {
        Ok(part) => (&sheet[part.start..part.end], Ok(())),
        Err(refusal) => (&sheet[..0], Err(refusal)),
    }
}
