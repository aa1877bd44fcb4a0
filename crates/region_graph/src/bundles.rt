// The places of the bundles, in ascending order of location.
ghost use Rattle.std.specs.Prelude.{◌≡◌, true, not, ◌&&◌, [], map, ◌<◌, ltb, length};
ghost use Rattle.region_graph.specs.Size.{most_bundles, most_provided};
ghost use Rattle.region_graph.specs.Lists.{All, ascends, keep, insert_by};
ghost use Rattle.region_graph.specs.Model.{package_before, bundle_before};
ghost use Rattle.region_graph.specs.Calls.{within, in_region, at_location};
ghost use Rattle.region_graph.specs.Record.{store_bundle, bundle_in, no_bundle, store_bundles, bundles_of};
ghost use Rattle.region_graph.specs.Places.{BundleStored, BundlesStored};
ghost use Rattle.region_graph.specs.Handed.{package_list};

use crate::numbers::{Provided, ascending};
use crate::packages::{PackageList, Packages};
use crate::places::{insert, retain};
use crate::size::{MOST_BUNDLES, MOST_PROVIDED};

#[repr(C)]
#[derive(Clone, Copy)]
pub struct StoredBundle {
    pub location: u32,
    pub region: u32,
    pub packages: Packages,
    pub services: Provided,
}

// A count and places, by the layout of the header for C. Connections have a type of their own: a struct with places of any type has no such
// layout.
#[repr(C)]
#[derive(Clone, Copy)]
pub struct Bundles {
    pub count: usize,
    pub items: [StoredBundle; MOST_BUNDLES],
}

// The packages and the services that a bundle is handed in with.
#[derive(Clone, Copy)]
pub struct BundleLists<'a> {
    pub packages: PackageList<'a>,
    pub services: &'a [u32],
}

impl<'a> BundleLists<'a> {
    // Whether both are within their count.
    pub(crate) fn within(self) -> bool
        ensures { result ≡ (within most_provided (package_list self.entry.packages) && within most_provided self.entry.services.now) }
    {
        self.packages.count() <= MOST_PROVIDED && self.services.len() <= MOST_PROVIDED
    }

    pub(crate) fn ascends(self) -> bool
        ensures { result ≡ (ascends package_before (package_list self.entry.packages) && ascends ltb self.entry.services.now) }
    {
        self.packages.ascends() && ascending(self.services)
    }
}

// What stands in a place that is not used.
pub fn no_bundle() -> StoredBundle
    ensures { result ≡ store_bundle no_bundle }
{
    StoredBundle {
        location: 0,
        region: 0,
        packages: Packages {
            count: 0,
            numbers: [0u32; MOST_PROVIDED],
            versions: [0u16; MOST_PROVIDED],
        },
        services: Provided {
            count: 0,
            items: [0u32; MOST_PROVIDED],
        },
    }
}

impl Bundles {
    pub fn none() -> Bundles
        ensures { result ≡ store_bundles [] }
    {
        let none = no_bundle();
        Bundles {
            count: 0,
            items: [none; MOST_BUNDLES],
        }
    }

    // The bundles in their order.
    pub fn as_slice(&self) -> &[StoredBundle]
        requires { BundlesStored self.now }
        ensures places { result.now ≡ map store_bundle (bundles_of self.now) }
        ensures means { map bundle_in result.now ≡ bundles_of self.now }
        ensures each { All BundleStored result.now }
    {
        &self.items[..self.count]
    }

    // The bundles in a region leave.
    pub fn remove_in(&mut self, region: u32)
        requires { BundlesStored self.old }
        ensures { self.new ≡ store_bundles (keep (λ b. not (in_region region b)) (bundles_of self.old)) }
    {
        self.count = retain(
            &mut self.items,
            self.count,
            no_bundle(),
            |b| b.region != region,
        );
    }

    // The bundle at a location leaves.
    pub fn remove_at(&mut self, location: u32)
        requires { BundlesStored self.old }
        ensures { self.new ≡ store_bundles (keep (λ b. not (at_location location b)) (bundles_of self.old)) }
    {
        self.count = retain(
            &mut self.items,
            self.count,
            no_bundle(),
            |b| b.location != location,
        );
    }

    // One bundle more, at its place in the order.
    pub fn insert(&mut self, bundle: &StoredBundle)
        requires bundles_stored { BundlesStored self.old }
        requires bundle_stored { BundleStored bundle.now }
        requires self_value { (ascends bundle_before (bundles_of self.old) ≡ true) × (length (bundles_of self.old) < most_bundles) }
        ensures { self.new ≡ store_bundles (insert_by bundle_before (bundle_in bundle.now) (bundles_of self.old)) }
    {
        insert(
            &mut self.items,
            self.count,
            *bundle,
            |b| b.location <= bundle.location,
        );
        self.count += 1;
    }
}
