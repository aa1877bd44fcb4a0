// The conversions of a lent archive: those of `region_convert`, with what they answer as one number for C.
#![tactic(auto, using(crate::proofs::Refused::written_refusal))]

ghost use Rattle.std.specs.Prelude.{◌≡◌};
ghost use Rattle.region_archive.specs.File.{FileMeaning};
ghost use Rattle.region_convert.specs.Conversion.{forward_outcome, back_outcome};
ghost use Rattle.region_host.specs.CNumbers.{answered, for_c, written_value};

use crate::answers::count_value;
use region_convert::{back, forward};

// An archive of version 1 or 2 as one of version 3, and its length.
pub fn region_archive_forward(bytes: &[u8], out: &mut [u8]) -> u64
    ensures { (f : FileMeaning bytes.now) → answered result out.new ≡ for_c written_value (forward_outcome f out.old) }
{
    count_value(forward(bytes, out))
}

// An archive of version 3 without versions as one of version 1 or 2, and its length.
pub fn region_archive_back(bytes: &[u8], out: &mut [u8]) -> u64
    ensures { (f : FileMeaning bytes.now) → answered result out.new ≡ for_c written_value (back_outcome f out.old) }
{
    count_value(back(bytes, out))
}
