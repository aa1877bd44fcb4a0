// A graph made of its lists at once. A bundle and a connection are each a fixed count of numbers: two, then for each list its count and its
// places; the count EVERYTHING is a part that is everything. A package and an entry are one number each, with versions in the lower bits.
ghost use Rattle.std.specs.Prelude.{◌≡◌, true, map, ℕ, List, ◌+◌, ◌*◌, ◌^◌, ◌<◌, ◌≤◌, length, get_or, MatchOption};
ghost use Rattle.std.specs.Bool.{then_some};
ghost use Rattle.region_graph.specs.Size.{regions, most_listed, most_provided};
ghost use Rattle.region_graph.specs.Lists.{member};
ghost use Rattle.region_graph.specs.Sets.{has, set_of, members};
ghost use Rattle.region_graph.specs.Model.{LegalBundle, LegalConnection};
ghost use Rattle.region_graph.specs.Record.{store_bundle, store_connection};
ghost use Rattle.region_graph.specs.Flat.{Made, bundle_width, connection_width};
ghost use Rattle.region_graph.specs.Places.{put_into};
ghost use Rattle.region_graph.specs.Decoded.{Decoded, CodesRead, HeadsPut, «tail_from», ListPut, PartPut};
ghost use Rattle.region_graph.specs.Decoded.{PackagesDecoded, EntriesDecoded, PackagePartDecoded};
ghost use Rattle.region_graph.specs.Decoded.{GoodRegions, FlatBundle, FlatConnection, Kind, bundle_kind, connection_kind, KindLaws, RowsPut};

use crate::Graph;
use crate::bundles::StoredBundle;
use crate::connections::StoredConnection;
use crate::numbers::{Numbers, Provided, ascending};
use crate::packages::{Entries, EntryList, PackageList, Packages};
use crate::refusals::Refusal;
use crate::region_set::{has, is_region, singleton};
use crate::size::{EVERYTHING, MOST_LISTED, MOST_PROVIDED, REGIONS};

// How many numbers a bundle takes, and a connection.
pub const BUNDLE_WIDTH: usize = 2 + 2 * (MOST_PROVIDED + 1);

pub const CONNECTION_WIDTH: usize = 2 + 3 * (MOST_LISTED + 1);

// A version has so many bits, and there are so many versions.
const VERSION_BITS: u32 = 16;

const VERSIONS: u64 = 1 << VERSION_BITS;

// A region of the set.
fn region_within(number: u64, regions: u64) -> Option<u32>
    ensures { result ≡ then_some (has regions number) number }
{
    u32::try_from(number)
        .ok()
        .filter(|&region| has(regions, region))
}

// The codes of the list at a place of the row, where it has at most so many. Each reader of a row asks for the room of its list there: a struct
// of row and place would ask the same.
fn codes_at(row: &[u64], at: usize, most: usize) -> Option<&[u64]>
    requires { at + (most + 1) ≤ length row.now }
    ensures { MatchOption result (most < get_or row.now at 0) (λ codes. CodesRead row.now at most codes.now) }
{
    let count = row[at] as usize;
    if most < count {
        return None;
    }
    let from = at + 1;
    Some(&row[from..from + count])
}

// Puts what is left of each code without its lower bits into the first places; none where one has more than 32 bits. The next function puts
// what always fits, in places of another type.
fn put_heads(places: &mut [u32], codes: &[u64], bits: u32) -> Option<()>
    requires codes_in_bounds { length codes.now ≤ length places.old }
    requires bits_bound { bits < 64 }
    ensures { HeadsPut (2 ^ bits) codes.now places.old result places.new }
{
    for (i, code) in codes.iter().enumerate() {
        places[i] = u32::try_from(code >> bits).ok()?;
    }
    Some(())
}

// Puts the 16 bits that stand above the lower bits of each code into the first places. They are taken first, since a cast that may lose bits is
// refused.
fn put_tails(places: &mut [u16], codes: &[u64], bits: u32)
    requires codes_in_bounds { length codes.now ≤ length places.old }
    requires bits_bound { bits < 64 }
    ensures { places.new ≡ put_into places.old (map (tail_from (2 ^ bits)) codes.now) }
{
    for (i, code) in codes.iter().enumerate() {
        places[i] = ((code >> bits) % VERSIONS) as u16;
    }
}

// Puts the list at a place of the row into lent places, as many as it may have numbers; says how many it has.
fn list_at(places: &mut [u32], row: &[u64], at: usize) -> Option<usize>
    requires { at + (length places.old + 1) ≤ length row.now }
    ensures { ListPut places.old row.now at result places.new }
{
    let codes = codes_at(row, at, places.len())?;
    let count = codes.len();
    put_heads(places, codes, 0)?;
    ascending(&places[..count]).then_some(count)
}

// Puts the part at a place; one that is everything leaves the places as they are. The places are lent, while `package_part_at` gives a value.
fn part_at(places: &mut [u32], row: &[u64], at: usize) -> Option<usize>
    requires places_in_bounds { at + (length places.old + 1) ≤ length row.now }
    requires places_len { length places.old ≡ most_listed }
    ensures { PartPut places.old row.now at result places.new }
{
    if row[at] as usize == EVERYTHING {
        return Some(EVERYTHING);
    }
    list_at(places, row, at)
}

// The packages at a place of the row.
fn packages_at(row: &[u64], at: usize) -> Option<Packages>
    requires { at + (most_provided + 1) ≤ length row.now }
    ensures { PackagesDecoded row.now at result }
{
    let codes = codes_at(row, at, MOST_PROVIDED)?;
    let count = codes.len();
    let mut numbers = [0u32; MOST_PROVIDED];
    let mut versions = [0u16; MOST_PROVIDED];
    put_heads(&mut numbers, codes, VERSION_BITS)?;
    put_tails(&mut versions, codes, 0);
    let list = PackageList {
        numbers: &numbers[..count],
        versions: &versions[..count],
    };
    list.ascends().then_some(Packages {
        count,
        numbers,
        versions,
    })
}

// The entries at a place of the row.
fn entries_at(row: &[u64], at: usize) -> Option<Entries>
    requires { at + (most_listed + 1) ≤ length row.now }
    ensures { EntriesDecoded row.now at result }
{
    let codes = codes_at(row, at, MOST_LISTED)?;
    let count = codes.len();
    let mut numbers = [0u32; MOST_LISTED];
    let mut lowest = [0u16; MOST_LISTED];
    let mut highest = [0u16; MOST_LISTED];
    put_heads(&mut numbers, codes, 2 * VERSION_BITS)?;
    put_tails(&mut lowest, codes, VERSION_BITS);
    put_tails(&mut highest, codes, 0);
    let list = EntryList {
        numbers: &numbers[..count],
        lowest: &lowest[..count],
        highest: &highest[..count],
    };
    if !list.ascends() {
        return None;
    }
    list.ordered().then_some(Entries {
        count,
        numbers,
        lowest,
        highest,
    })
}

// The package part at a place of the row.
fn package_part_at(row: &[u64], at: usize) -> Option<Entries>
    requires { at + (most_listed + 1) ≤ length row.now }
    ensures { PackagePartDecoded row.now at result }
{
    if row[at] as usize == EVERYTHING {
        return Some(Entries::everything());
    }
    entries_at(row, at)
}

fn region_list(list: &[u32]) -> Option<u64>
    ensures { Decoded (λ rs. set_of (λ n. member n rs)) GoodRegions (λ rs. rs ≡ list.now) result }
{
    let mut set: u64 = 0;
    for &region in list {
        if !is_region(region) {
            return None;
        }
        set |= singleton(region);
    }
    ascending(list).then_some(set)
}

// What is stored of a row of numbers, whose regions are in a set. A list of rows ascends by their keys.
trait Row: Copy {
    const WIDTH: usize;

    ghost WIDTH: { ℕ };

    ghost kind: { ℕ → Kind Self };

    ghost key: { Self → ℕ };

    fn read(row: &[u64], regions: u64) -> Option<Self>
        requires { length row.now ≡ WIDTH }
        ensures { Decoded (kind regions).put (kind regions).Good ((kind regions).Is row.now) result };

    fn key(&self) -> u64
        ensures value { result ≡ key self.now }
        ensures bound { result < 2 ^ 63 };
}

impl Row for StoredBundle {
    const WIDTH: usize = BUNDLE_WIDTH;

    ghost WIDTH = { bundle_width };

    ghost kind = { λ x. bundle_kind (members x) };

    ghost key = { λ b. b.location };

    fn read(row: &[u64], regions: u64) -> Option<StoredBundle> {
        let location = u32::try_from(row[0]).ok()?;
        let region = region_within(row[1], regions)?;
        let packages = packages_at(row, 2)?;
        let mut items = [0u32; MOST_PROVIDED];
        let count = list_at(&mut items, row, 2 + (MOST_PROVIDED + 1))?;
        Some(StoredBundle {
            location,
            region,
            packages,
            services: Provided { count, items },
        })
    }

    fn key(&self) -> u64 {
        u64::from(self.location)
    }
}

impl Row for StoredConnection {
    const WIDTH: usize = CONNECTION_WIDTH;

    ghost WIDTH = { connection_width };

    ghost kind = { λ x. connection_kind (members x) };

    ghost key = { λ c. c.source * regions + c.target };

    fn read(row: &[u64], regions: u64) -> Option<StoredConnection> {
        let source = region_within(row[0], regions)?;
        let target = region_within(row[1], regions)?;
        let mut named = [0u32; MOST_LISTED];
        let bundles = list_at(&mut named, row, 2)?;
        let packages = package_part_at(row, 2 + (MOST_LISTED + 1))?;
        let mut offered = [0u32; MOST_LISTED];
        let services = part_at(&mut offered, row, 2 + 2 * (MOST_LISTED + 1))?;
        (source != target).then_some(StoredConnection {
            source,
            target,
            bundles: Numbers {
                count: bundles,
                items: named,
            },
            packages,
            services: Numbers {
                count: services,
                items: offered,
            },
        })
    }

    fn key(&self) -> u64 {
        u64::from(self.source) * (REGIONS as u64) + u64::from(self.target)
    }
}

// Puts what rows store into the first places, one after the other; says how many there are. None where a row is not good, or not above
// the one before it, or has no place, or where numbers are left.
fn put_rows<T: Row>(places: &mut [T], rows: &[u64], regions: u64) -> Option<usize>
    requires { KindLaws T.WIDTH T.key (T.kind regions) }
    ensures { RowsPut (T.kind regions) T.WIDTH rows.now places.old result places.new }
{
    let mut least: u64 = 0;
    let mut count: usize = 0;
    if rows.len() % T::WIDTH != 0 {
        return None;
    }
    for row in rows.chunks_exact(T::WIDTH) {
        if count == places.len() {
            return None;
        }
        let element = T::read(row, regions)?;
        let key = element.key();
        if key < least {
            return None;
        }
        places[count] = element;
        least = key + 1;
        count += 1;
    }
    Some(count)
}

impl Graph {
    // The graph that has these regions, bundles and connections; a refusal where document 01 allows no such graph.
    pub fn of_flat(regions: &[u32], bundles: &[u64], connections: &[u64]) -> Result<Graph, Refusal>
        ensures { Made regions.now bundles.now connections.now result }
    {
        let mut graph = Graph::empty();
        let set = region_list(regions).ok_or(Refusal::BrokenLayout)?;
        let installed = put_rows(&mut graph.bundles.items, bundles, set).ok_or(
            Refusal::BrokenLayout,
        )?;
        let connected = put_rows(&mut graph.connections.items, connections, set).ok_or(
            Refusal::BrokenLayout,
        )?;
        graph.regions = set;
        graph.bundles.count = installed;
        graph.connections.count = connected;
        Ok(graph)
    }
}
