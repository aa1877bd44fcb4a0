// The versions of an image. The two before the latest have one layout, for different region numbers.
ghost use Rattle.std.specs.Prelude.{◌≡◌, ◌||◌, eqb};
ghost use Rattle.region_graph.specs.Sets.{members};
ghost use Rattle.region_archive.specs.Image;

// The versions that are read are these two and those between; the latest is written.
pub const OLDEST: usize = 1;

pub const LATEST: usize = 3;

// Before the latest: that of an image whose regions are all at most 15, and that of any other.
const EARLY: usize = 1;

const LATE: usize = 2;

// A set below this has no region above 15.
const EARLY_SETS: u64 = 65536;

// The version before the latest of the image of a graph with these regions.
#[tactic(auto, using(crate::proofs::Versions::early, crate::proofs::Versions::late))]
pub fn older_version(set: u64) -> usize
    ensures { result ≡ Image.older_version (members set) }
{
    if set < EARLY_SETS { EARLY } else { LATE }
}

// Whether a file of a version that is read may have these regions.
pub fn has_version(set: u64, version: usize) -> bool
    ensures { result ≡ (eqb version Image.latest || eqb version (Image.older_version (members set))) }
{
    version == LATEST || version == older_version(set)
}
