// The region graph: regions R, bundles B and connections F of document 01 in one record, and the six calls that change it.
#![tactic(auto)]

mod bundles;
mod calls;
mod connections;
pub mod flat;
mod numbers;
mod packages;
mod places;
pub mod refusals;
pub mod region_set;
pub mod size;
mod view;

ghost use Rattle.region_graph.specs.Promise.{Empty};

use bundles::Bundles;
pub use bundles::{BundleLists, StoredBundle};
use connections::Connections;
pub use connections::{FilterLists, StoredConnection};
pub use numbers::{Numbers, Provided, has_number};
pub use packages::{Entries, EntryList, PackageList, Packages, PartList, has_package};

// R as a set, B and F in ascending order in the first places of their arrays. C lends one as bytes of any content, to be made the empty
// one, so that it is no invariant of the type but a clause of each function that the graph is valid.
#[repr(C)]
#[derive(Clone, Copy)]
pub struct Graph {
    regions: u64,
    bundles: Bundles,
    connections: Connections,
}

// A number of one of the kinds 0 bundle, 1 package and 2 service, and a version, which counts for a package alone. A kind is a number since
// the functions that take an item answer for every kind: of any other nothing is held and nothing passes.
#[derive(Clone, Copy)]
pub struct Item {
    pub kind: u32,
    pub number: u32,
    pub version: u16,
}

impl Graph {
    // The graph with nothing in it.
    pub fn empty() -> Graph
        ensures { Empty result }
    {
        Graph {
            regions: 0,
            bundles: Bundles::none(),
            connections: Connections::none(),
        }
    }
}
