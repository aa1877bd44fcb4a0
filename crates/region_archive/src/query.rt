// The archive query.
ghost use Rattle.region_archive.specs.Promise.{Queried, query_number};

use crate::reading::read_over;
use region_graph::refusals::Refusal;
use region_graph::region_set::has;
use region_graph::{Graph, Item};
use region_routes::regions_seeing;

// The numbers for C of the answers that an item is seen, and that it is hidden.
pub const SEEN: u32 = 100;

pub const HIDDEN: u32 = 101;

// Whether the bundle at a location sees an item in the graph of an archive. Any number is asked as a kind's, and refused after the bundle is
// found: so it is no Kind.
pub fn archive_query(
    bytes: &[u8],
    location: u32,
    kind: u32,
    item: u32,
    version: u16,
) -> Result<bool, Refusal>
    ensures { Queried bytes.now location kind item version (query_number result) }
{
    let mut graph = Graph::empty();
    read_over(&mut graph, bytes)?;
    let Some(region) = graph.region_of(location) else {
        return Err(Refusal::NotInstalled);
    };
    if 2 < kind {
        return Err(Refusal::NotAKind);
    }
    let sought = Item {
        kind,
        number: item,
        version,
    };
    Ok(has(regions_seeing(&graph, sought), region))
}
