// What the layers above read of a graph. Every function answers every argument.
ghost use Rattle.std.specs.Prelude.{◌≡◌, nat_eq, length, map, option_map};
ghost use Rattle.std.specs.List.{find};
ghost use Rattle.region_graph.specs.Lists.{exists, member};
ghost use Rattle.region_graph.specs.Calls.{at_location, names, joins};
ghost use Rattle.region_graph.specs.Sets.{set_of};
ghost use Rattle.region_graph.specs.Items.{provides, passes};
ghost use Rattle.region_graph.specs.Record.{Valid, meaning, store_bundle, store_connection, bundle_in, connection_in};
ghost use Rattle.region_graph.specs.Places.{BundleStored, ConnectionStored};
ghost use Rattle.region_graph.specs.Promise.{«place_of», provider_place, holder_set, predecessor_sets};
ghost use Rattle.region_graph.specs.Promise.{bundle_at, connection_at};

use crate::bundles::{StoredBundle, no_bundle};
use crate::connections::{StoredConnection, no_connection};
use crate::region_set::singleton;
use crate::size::REGIONS;
use crate::{Graph, Item};

// Whether a bundle brings an item to its region.
fn bundle_provides(b: &StoredBundle, item: Item) -> bool
    requires { BundleStored b.now }
    ensures { result ≡ provides item (bundle_in b.now) }
{
    match item.kind {
        0 => b.location == item.number,
        1 => b.packages.as_list().has(item.number, item.version),
        2 => b.services.as_slice().contains(&item.number),
        _ => false,
    }
}

// Whether a connection's filter passes an item.
fn connection_passes(c: &StoredConnection, item: Item) -> bool
    requires { ConnectionStored c.now }
    ensures { result ≡ passes item (connection_in c.now).filter }
{
    match item.kind {
        0 => c.bundles.as_slice().contains(&item.number),
        1 => c.packages.as_part().passes(item.number, item.version),
        2 => c.services.as_part().passes(item.number),
        _ => false,
    }
}

// The bundle at a location.
fn installed(bundles: &[StoredBundle], location: u32) -> Option<&StoredBundle>
    ensures { option_map (λ b. b.now) result ≡ find (λ b. nat_eq b.location location) bundles.now }
{
    bundles.iter().find(|b| b.location == location)
}

impl Graph {
    // R as a set.
    pub fn region_set(&self) -> u64
        requires { Valid self.now }
        ensures { result ≡ set_of (λ n. member n (meaning self.now).regions) }
    {
        self.regions
    }

    // The bundles in ascending order of location.
    pub fn bundles(&self) -> &[StoredBundle]
        requires { Valid self.now }
        ensures { result.now ≡ map store_bundle (meaning self.now).bundles }
    {
        self.bundles.as_slice()
    }

    // The connections in ascending order of source and target.
    pub fn connections(&self) -> &[StoredConnection]
        requires { Valid self.now }
        ensures { result.now ≡ map store_connection (meaning self.now).connections }
    {
        self.connections.as_slice()
    }

    // Whether a bundle is at a location.
    pub(crate) fn has_bundle(&self, location: u32) -> bool
        requires { Valid self.now }
        ensures { result ≡ exists (at_location location) (meaning self.now).bundles }
    {
        self.region_of(location).is_some()
    }

    // Whether a connection leads from one region to another. A loop, as in `names`: of `any` the proof did not close.
    pub(crate) fn has_connection(&self, source: u32, target: u32) -> bool
        requires { Valid self.now }
        ensures { result ≡ exists (joins source target) (meaning self.now).connections }
    {
        for c in self.connections() {
            if c.joins(source, target) {
                return true;
            }
        }
        false
    }

    // Whether a connection that leaves a region names a location in its bundle part.
    pub(crate) fn names(&self, region: u32, location: u32) -> bool
        requires { Valid self.now }
        ensures { result ≡ exists (names region location) (meaning self.now).connections }
    {
        for c in self.connections() {
            if c.names(region, location) {
                return true;
            }
        }
        false
    }

    // The region in which a location is installed.
    pub fn region_of(&self, location: u32) -> Option<u32>
        requires { Valid self.now }
        ensures { result ≡ place_of (meaning self.now).bundles location }
    {
        installed(self.bundles(), location).map(|b| b.region)
    }

    // The region in which a location is installed, if the bundle there provides an item.
    pub fn provider(&self, location: u32, item: Item) -> Option<u32>
        requires { Valid self.now }
        ensures { result ≡ provider_place (meaning self.now).bundles location item }
    {
        let b = installed(self.bundles(), location)?;
        bundle_provides(b, item).then_some(b.region)
    }

    // The regions that hold an item.
    pub fn holders(&self, item: Item) -> u64
        requires { Valid self.now }
        ensures { result ≡ holder_set (meaning self.now) item }
    {
        let mut set: u64 = 0;
        for b in self.bundles() {
            if bundle_provides(b, item) {
                set |= singleton(b.region);
            }
        }
        set
    }

    // For each region the regions from which a connection that passes an item leads to it.
    pub fn predecessors(&self, item: Item) -> [u64; REGIONS]
        requires { Valid self.now }
        ensures { result ≡ predecessor_sets (meaning self.now) item }
    {
        let mut sets = [0u64; REGIONS];
        for c in self.connections() {
            if connection_passes(c, item) {
                sets[c.target as usize] |= singleton(c.source);
            }
        }
        sets
    }

    // Counts, and elements by index: two fields, a line each.
    pub fn bundle_count(&self) -> usize
        requires { Valid self.now }
        ensures { result ≡ length (meaning self.now).bundles }
    {
        self.bundles.count
    }

    // The i-th bundle in ascending order of location; past the count, the one that has nothing.
    pub fn bundle_at(&self, i: usize) -> StoredBundle
        requires { Valid self.now }
        ensures { result ≡ store_bundle (bundle_at (meaning self.now) i) }
    {
        self.bundles().get(i).copied().unwrap_or(no_bundle())
    }

    pub fn connection_count(&self) -> usize
        requires { Valid self.now }
        ensures { result ≡ length (meaning self.now).connections }
    {
        self.connections.count
    }

    // The i-th connection in ascending order of source and target; past the count, the one that has nothing.
    pub fn connection_at(&self, i: usize) -> StoredConnection
        requires { Valid self.now }
        ensures { result ≡ store_connection (connection_at (meaning self.now) i) }
    {
        self.connections()
            .get(i)
            .copied()
            .unwrap_or(no_connection())
    }
}
