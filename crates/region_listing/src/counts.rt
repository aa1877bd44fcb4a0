// For each region how many different items of a kind it sees.
ghost use Rattle.region_graph.specs.Record.{Valid, meaning};
ghost use Rattle.region_listing.specs.Counts.{CountsFit, CountedOnce, Counted};

use crate::collection::collect;
use region_graph::region_set::{lowest, without_lowest};
use region_graph::size::REGIONS;
use region_graph::{Graph, Item};
use region_routes::{Kind, regions_seeing};

// Counts each member of a set once more.
fn count_members(counts: &mut [u32; REGIONS], set: u64)
    requires { CountsFit counts.old }
    ensures { CountedOnce counts.old set counts.new }
{
    // What is left loses a member at each turn: so there are as many turns as the set has members, not one for each region.
    let mut left = set;
    while left != 0 {
        let n = lowest(left);
        left = without_lowest(left);
        counts[n as usize] += 1;
    }
}

// How many different items of a kind each region sees. An item stands in two columns, so that it goes by place.
pub fn seen(graph: &Graph, kind: Kind) -> [u32; REGIONS]
    requires { Valid graph.now }
    ensures { Counted (meaning graph.now) kind result }
{
    let all = collect(graph, kind);
    let code = kind.number();
    let mut counts = [0; REGIONS];
    for i in 0..all.count {
        let item = Item {
            kind: code,
            number: all.numbers[i],
            version: all.versions[i],
        };
        count_members(&mut counts, regions_seeing(graph, item));
    }
    counts
}
