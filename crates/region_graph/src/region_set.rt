// Sets of regions: region n is a member where binary digit n is set. Every function answers every number.
ghost use Rattle.std.specs.Prelude.{◌≡◌, ◌-◌, ◌^◌, ltb};
ghost use Rattle.std.specs.Int.Bits.{bit_and};
ghost use Rattle.std.specs.Int.Count.{count_trailing_zeros};
ghost use Rattle.region_graph.specs.Size.{regions};
ghost use Rattle.region_graph.specs.Sets;

use crate::size::REGIONS;

// Whether a number is a region's.
pub fn is_region(number: u32) -> bool
    ensures { result ≡ ltb number regions }
{
    (number as usize) < REGIONS
}

// The set that holds one region; a number that is no region's gives the empty set.
pub fn singleton(region: u32) -> u64
    ensures { result ≡ Sets.singleton region }
{
    if is_region(region) { 1 << region } else { 0 }
}

// Whether a region is in a set: whether its digit, as specs/Sets has it, is 1.
pub fn has(set: u64, region: u32) -> bool
    ensures { result ≡ Sets.has set region }
{
    is_region(region) && (set >> region) % 2 == 1
}

// The members of a set that are not in the other.
pub fn difference(set: u64, other: u64) -> u64
    ensures { result ≡ bit_and set (2 ^ 64 - 1 - other) }
{
    set & !other
}

// The lowest member of a set; 64 where it has none.
pub fn lowest(set: u64) -> u32
    ensures { result ≡ count_trailing_zeros 64 set }
{
    set.trailing_zeros()
}

// A set without its lowest member; the empty set stays.
pub fn without_lowest(set: u64) -> u64
    ensures { result ≡ bit_and set (2 ^ 64 - 1 - Sets.singleton (count_trailing_zeros 64 set)) }
{
    set & set.wrapping_sub(1)
}
