// What a host asks before any other call: the version of the interface, and the size of the record.
ghost use Rattle.std.specs.Prelude.{◌≡◌};
ghost use Rattle.region_host.specs.Version.{interface_version, record_size};

use region_graph::size::{MOST_BUNDLES, MOST_CONNECTIONS, MOST_LISTED, MOST_PROVIDED};

// Raised whenever a host must be compiled anew; WIMBORU_VERSION of include/wimboru.h goes with it.
const VERSION: u32 = 5;

// Bytes of a number, of a version, of a count or the set of regions, of a bundle, of a connection and of the record.
const NUMBER: usize = 4;

const VERSION_SIZE: usize = 2;

const COUNT: usize = 8;

const BUNDLE: usize = 2 * NUMBER
    + (COUNT + MOST_PROVIDED * (NUMBER + VERSION_SIZE))
    + (COUNT + MOST_PROVIDED * NUMBER);

const CONNECTION: usize = 2 * NUMBER
    + 2 * (COUNT + MOST_LISTED * NUMBER)
    + (COUNT + MOST_LISTED * (NUMBER + 2 * VERSION_SIZE));

const RECORD: usize = COUNT
    + (COUNT + MOST_BUNDLES * BUNDLE)
    + (COUNT + MOST_CONNECTIONS * CONNECTION);

pub fn region_interface_version() -> u32
    ensures { result ≡ interface_version }
{
    VERSION
}

pub fn region_record_size() -> usize
    ensures { result ≡ record_size }
{
    RECORD
}
