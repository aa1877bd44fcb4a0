// The route call.
ghost use Rattle.std.specs.Prelude.{◌≡◌, ◌≤◌, length};
ghost use Rattle.region_graph.specs.Size.{regions};
ghost use Rattle.region_graph.specs.Record.{Valid, meaning};
ghost use Rattle.region_routes.specs.Search.{Leading, Next, Walkable, Walked};
ghost use Rattle.region_routes.specs.Hooks.{routed, routed_answer, route_outcome};

use crate::search::{Ends, ItemSearch, Members, search_for};
use region_graph::refusals::Refusal;
use region_graph::region_set::has;
use region_graph::size::REGIONS;
use region_graph::{Graph, Item};

// The smallest region of a set to which a connection from a region leads.
fn next_to(pred: &[u64; REGIONS], set: u64, region: u32) -> u32
    requires { Leading pred.now set region }
    ensures { Next pred.now set region result }
{
    for next in (Members { left: set }) {
        if has(pred[next as usize], region) {
            return next;
        }
    }
    unreachable!()
}

// Writes the best route from a region of the layer `deep` at the buffer's start: the smallest next region each time.
fn walk(search: &ItemSearch, deep: usize, region: u32, out: &mut [u8])
    requires room { regions ≤ length out.old }
    requires walkable { Walkable search.now.pred search.now.layers.sets deep region }
    ensures { Walked search.now.pred search.now.layers.sets deep region out.old out.new }
{
    let mut here = region;
    out[0] = here as u8;
    for passed in 0..deep {
        here = next_to(&search.pred, search.layers.sets[deep - passed - 1], here);
        out[passed + 1] = here as u8;
    }
}

// The count of connections of the route that document 01 picks, its regions at the buffer's start, one byte each; None where the item is
// hidden. Any number is asked as a kind's, and refused after the bundle is found: so it is no Kind.
#[tactic(auto, using(crate::proofs::Judging::region_inside, crate::proofs::Answering::route_not_installed, crate::proofs::Answering::route_not_a_kind, crate::proofs::Answering::route_no_place))]
pub fn route(
    graph: &Graph,
    location: u32,
    kind: u32,
    number: u32,
    version: u16,
    out: &mut [u8],
) -> Result<Option<usize>, Refusal>
    requires { Valid graph.now }
    ensures { routed (routed_answer result) out.new ≡ route_outcome (meaning graph.now) location kind number version out.old }
{
    let region = graph.region_of(location).ok_or(Refusal::NotInstalled)?;
    if 2 < kind {
        return Err(Refusal::NotAKind);
    }
    if out.len() < REGIONS {
        return Err(Refusal::NoPlace);
    }
    let item = Item {
        kind,
        number,
        version,
    };
    let search = search_for(graph, item, Ends::Holders);
    let Some(deep) = search.layers.distance(region) else {
        return Ok(None);
    };
    walk(&search, deep, region, out);
    Ok(Some(deep))
}
