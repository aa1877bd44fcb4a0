// What a host reads of the lent record.
ghost use Rattle.std.specs.Prelude.{◌≡◌, length};
ghost use Rattle.region_graph.specs.Lists.{member};
ghost use Rattle.region_graph.specs.Sets.{set_of};
ghost use Rattle.region_graph.specs.Record.{Valid, meaning, store_bundle, store_connection};
ghost use Rattle.region_graph.specs.Promise.{«place_of»};
ghost use Rattle.region_host.specs.CNumbers.{answered};
ghost use Rattle.region_host.specs.Reading.{place_value, nth_for_c};

use crate::answers::place_value;
use region_graph::{Graph, StoredBundle, StoredConnection};

// The regions, as a set: bit n is 1 where region n is there.
pub fn region_set(graph: &Graph) -> u64
    requires { Valid graph.now }
    ensures { result ≡ set_of (λ n. member n (meaning graph.now).regions) }
{
    graph.region_set()
}

// How many bundles are installed.
pub fn region_bundle_count(graph: &Graph) -> u64
    requires { Valid graph.now }
    ensures { result ≡ length (meaning graph.now).bundles }
{
    graph.bundle_count() as u64
}

// How many connections there are.
pub fn region_connection_count(graph: &Graph) -> u64
    requires { Valid graph.now }
    ensures { result ≡ length (meaning graph.now).connections }
{
    graph.connection_count() as u64
}

// The region of the bundle at a location.
pub fn region_of(graph: &Graph, location: u32) -> u64
    requires { Valid graph.now }
    ensures { result ≡ place_value (place_of (meaning graph.now).bundles location) }
{
    place_value(graph.region_of(location))
}

// Puts the element at an index, if there is one, to a lent place; and how many were put.
fn put_nth<T: Copy>(out: &mut T, items: &[T], index: usize) -> u64
    ensures { answered result out.new ≡ nth_for_c (λ x. x) items.now index out.old }
{
    match items.get(index) {
        Some(item) => {
            *out = *item;
            1
        }
        None => 0,
    }
}

// The bundle at an index, from 0 on in ascending order of location, and how many were written: one or none.
#[tactic(auto, using(crate::proofs::Nth::nth_stored))]
pub fn region_bundle_at(graph: &Graph, out: &mut StoredBundle, index: usize) -> u64
    requires { Valid graph.now }
    ensures { answered result out.new ≡ nth_for_c store_bundle (meaning graph.now).bundles index out.old }
{
    put_nth(out, graph.bundles(), index)
}

// The connection at an index, from 0 on in ascending order of source and target, and how many were written: one or none.
#[tactic(auto, using(crate::proofs::Nth::nth_stored))]
pub fn region_connection_at(graph: &Graph, out: &mut StoredConnection, index: usize) -> u64
    requires { Valid graph.now }
    ensures { answered result out.new ≡ nth_for_c store_connection (meaning graph.now).connections index out.old }
{
    put_nth(out, graph.connections(), index)
}
