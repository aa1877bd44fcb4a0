// The conversions of a lent archive.
ghost use Rattle.std.specs.Prelude.{◌≡◌};
ghost use Rattle.region_archive.specs.File.{FileMeaning};
ghost use Rattle.region_convert.specs.Conversion.{forward_outcome, back_outcome};
ghost use Rattle.region_host.specs.CNumbers.{answered, for_c, written_value};

#[unsafe(no_mangle)]
pub extern "C" fn region_archive_forward(bytes: &[u8], out: &mut [u8]) -> u64
    ensures { (f : FileMeaning bytes.now) → answered result out.new ≡ for_c written_value (forward_outcome f out.old) }
{
    region_host::region_archive_forward(bytes, out)
}

#[unsafe(no_mangle)]
pub extern "C" fn region_archive_back(bytes: &[u8], out: &mut [u8]) -> u64
    ensures { (f : FileMeaning bytes.now) → answered result out.new ≡ for_c written_value (back_outcome f out.old) }
{
    region_host::region_archive_back(bytes, out)
}
