// The name of a kind and number in a name sheet.
ghost use Rattle.region_host.specs.CNames.{NamedForC};

#[unsafe(no_mangle)]
pub extern "C" fn region_name(sheet: &[u8], start: &mut usize, kind: u32, number: u32) -> u64
    ensures { NamedForC sheet.now kind number start.old result start.new }
{
    region_host::region_name(sheet, start, kind, number)
}
