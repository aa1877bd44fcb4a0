// The different items of a kind that the bundles of a graph hold, each a number with a version.
ghost use Rattle.std.specs.Prelude.{◌≡◌, ◌+◌, ◌≤◌, length};
ghost use Rattle.region_graph.specs.Places.{PackagesStored, BundleStored};
ghost use Rattle.region_graph.specs.Record.{Valid, meaning, packages_of, bundle_in};
ghost use Rattle.region_listing.specs.Listing.{joined_all, provided, held};
ghost use Rattle.region_listing.specs.Counts.{Collected, items_in, most_different};

use region_graph::size::{MOST_BUNDLES, MOST_PROVIDED};
use region_graph::{Graph, Packages, StoredBundle, has_package};
use region_routes::Kind;

pub const MOST_DIFFERENT: usize = MOST_BUNDLES * MOST_PROVIDED;

// The items that are there stand in the first places. There is no heap: it has places for as many as the bundles can hold.
#[derive(Clone, Copy)]
pub struct Collection {
    pub count: usize,
    pub numbers: [u32; MOST_DIFFERENT],
    pub versions: [u16; MOST_DIFFERENT],
}

impl Collection {
    // What a list has joins the collection, each unless it is there. An item stands in two columns, so that it goes by place.
    fn join(&mut self, list: &Packages)
        requires collected { Collected self.old (items_in self.old) }
        requires packages_stored { PackagesStored list.now }
        requires list_len_bound { length (items_in self.old) + length (packages_of list.now) ≤ most_different }
        ensures { Collected self.new (joined_all (items_in self.old) (packages_of list.now)) }
    {
        for i in 0..list.count {
            let number = list.numbers[i];
            let version = list.versions[i];
            let n = self.count;
            if !has_package(&self.numbers[..n], &self.versions[..n], number, version) {
                self.numbers[n] = number;
                self.versions[n] = version;
                self.count = n + 1;
            }
        }
    }
}

// What a bundle brings to its region, of a kind, which chooses a part of the record.
fn provided_by(b: &StoredBundle, kind: Kind) -> Packages
    requires { BundleStored b.now }
    ensures { PackagesStored result × (packages_of result ≡ provided kind (bundle_in b.now)) }
{
    match kind {
        Kind::Bundle => {
            let mut numbers = [0; MOST_PROVIDED];
            numbers[0] = b.location;
            Packages {
                count: 1,
                numbers,
                versions: [0; MOST_PROVIDED],
            }
        }
        Kind::Package => b.packages,
        Kind::Service => Packages {
            count: b.services.count,
            numbers: b.services.items,
            versions: [0; MOST_PROVIDED],
        },
    }
}

// The different items of a kind.
pub fn collect(graph: &Graph, kind: Kind) -> Collection
    requires { Valid graph.now }
    ensures { Collected result (held kind (meaning graph.now).bundles) }
{
    let mut all = Collection {
        count: 0,
        numbers: [0; MOST_DIFFERENT],
        versions: [0; MOST_DIFFERENT],
    };
    for b in graph.bundles() {
        let list = provided_by(b, kind);
        all.join(&list);
    }
    all
}
