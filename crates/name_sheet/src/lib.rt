// The name sheet: names of bundles, packages, services and regions, by kind and number.
#![tactic(auto)]

mod entries;
mod sheet;

pub use sheet::{NamePlace, locate, lookup, lookup_part};

// The first byte of a sheet.
const VERSION: u32 = 1;

// The bytes of a sheet before its entries: the version and the length of the rest.
const FRONT: usize = 5;

// The greatest kind, that of a region.
const GREATEST_KIND: u32 = 3;

// The bytes of an entry before its name: its length, the kind and the number.
const HEAD: usize = 7;

// The bytes of an entry's kind and number, which its length counts with those of the name.
const FIELDS: usize = 5;

// The most bytes of a name.
const LONGEST_NAME: usize = 40;

// How many numbers a kind has.
const NUMBERS: u64 = 4294967296;
