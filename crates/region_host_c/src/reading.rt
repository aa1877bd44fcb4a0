// What a host reads of the lent record.
ghost use Rattle.std.specs.Prelude.{◌≡◌, length};
ghost use Rattle.region_graph.specs.Lists.{member};
ghost use Rattle.region_graph.specs.Sets.{set_of};
ghost use Rattle.region_graph.specs.Record.{Valid, meaning, store_bundle, store_connection};
ghost use Rattle.region_graph.specs.Promise.{«place_of»};
ghost use Rattle.region_host.specs.CNumbers.{answered};
ghost use Rattle.region_host.specs.Reading.{place_value, nth_for_c};

use region_graph::{Graph, StoredBundle, StoredConnection};

#[unsafe(no_mangle)]
pub extern "C" fn region_set(graph: &Graph) -> u64
    requires { Valid graph.now }
    ensures { result ≡ set_of (λ n. member n (meaning graph.now).regions) }
{
    region_host::region_set(graph)
}

#[unsafe(no_mangle)]
pub extern "C" fn region_bundle_count(graph: &Graph) -> u64
    requires { Valid graph.now }
    ensures { result ≡ length (meaning graph.now).bundles }
{
    region_host::region_bundle_count(graph)
}

#[unsafe(no_mangle)]
pub extern "C" fn region_connection_count(graph: &Graph) -> u64
    requires { Valid graph.now }
    ensures { result ≡ length (meaning graph.now).connections }
{
    region_host::region_connection_count(graph)
}

#[unsafe(no_mangle)]
pub extern "C" fn region_of(graph: &Graph, location: u32) -> u64
    requires { Valid graph.now }
    ensures { result ≡ place_value (place_of (meaning graph.now).bundles location) }
{
    region_host::region_of(graph, location)
}

#[unsafe(no_mangle)]
pub extern "C" fn region_bundle_at(graph: &Graph, out: &mut StoredBundle, index: usize) -> u64
    requires { Valid graph.now }
    ensures { answered result out.new ≡ nth_for_c store_bundle (meaning graph.now).bundles index out.old }
{
    region_host::region_bundle_at(graph, out, index)
}

#[unsafe(no_mangle)]
pub extern "C" fn region_connection_at(
    graph: &Graph,
    out: &mut StoredConnection,
    index: usize,
) -> u64
    requires { Valid graph.now }
    ensures { answered result out.new ≡ nth_for_c store_connection (meaning graph.now).connections index out.old }
{
    region_host::region_connection_at(graph, out, index)
}
