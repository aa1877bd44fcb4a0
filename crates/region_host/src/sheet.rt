// The name of a kind and number in a name sheet. C hands in any number as a kind's.
ghost use Rattle.region_host.specs.CNames.{NamedForC};

use crate::answers::negative;
use name_sheet::locate;

// How many bytes the name has, and where its first byte stands.
pub fn region_name(sheet: &[u8], start: &mut usize, kind: u32, number: u32) -> u64
    ensures { NamedForC sheet.now kind number start.old result start.new }
{
    match locate(sheet, kind, number) {
        Ok(name) => {
            *start = name.start;
            name.len() as u64
        }
        Err(refusal) => negative(refusal.number()),
    }
}
