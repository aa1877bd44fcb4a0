// The queries of the lent record, and that of a lent archive, each answer made one number for C. C hands in lists one by one, and any number
// as a kind's. A name that ends in a version has the arguments that came with that version of the interface.
#![tactic(auto, using(crate::proofs::Refused::routed_refusal, crate::proofs::Refused::kept_refusal, crate::proofs::Refused::written_refusal))]

ghost use Rattle.std.specs.Prelude.{◌≡◌, [], ◌∷◌, length};
ghost use Rattle.region_graph.specs.Record.{Valid, meaning};
ghost use Rattle.region_routes.specs.Hooks.{route_outcome, find_outcome, event_outcome};
ghost use Rattle.region_routes.specs.Resolve.{candidates, resolve_outcome};
ghost use Rattle.region_routes.specs.declared.Kind.TheVariants as Kind;
ghost use Rattle.region_archive.specs.Image.{image};
ghost use Rattle.region_archive.specs.Promise.{Queried, write_outcome};
ghost use Rattle.region_host.specs.CNumbers.{answered, for_c, routed_value, kept_value, written_value};

use crate::answers::{count_value, query_value, routed_value};
use region_archive::{archive_query, image_length, write};
use region_graph::Graph;
use region_routes::{bundle_event, bundle_find, resolve, route, service_event, service_find};

// The route that document 01 picks, and its count of connections.
pub fn region_route_v4(
    graph: &Graph,
    out: &mut [u8],
    location: u32,
    kind: u32,
    item: u32,
    version: u16,
) -> u64
    requires { Valid graph.now }
    ensures { answered result out.new ≡ for_c routed_value (route_outcome (meaning graph.now) location kind item version out.old) }
{
    routed_value(route(graph, location, kind, item, version, out))
}

// The bundles among the candidates that a bundle sees.
pub fn region_bundle_find(graph: &Graph, out: &mut [u32], location: u32, candidates: &[u32]) -> u64
    requires { Valid graph.now }
    ensures { answered result out.new ≡ for_c kept_value (find_outcome (meaning graph.now) Kind.Bundle location candidates.now out.old) }
{
    count_value(bundle_find(graph, location, candidates, out))
}

// The candidates, exporters with packages, that a bundle is offered.
pub fn region_resolve_v4(
    graph: &Graph,
    out_exporters: &mut [u32],
    out_packages: &mut [u32],
    out_versions: &mut [u16],
    location: u32,
    exporters: &[u32],
    packages: &[u32],
    versions: &[u16],
) -> u64
    requires { Valid graph.now }
    ensures { answered result (out_exporters.new ∷ out_packages.new ∷ out_versions.new ∷ []) ≡ for_c kept_value (resolve_outcome (meaning graph.now) location (candidates exporters.now packages.now versions.now) (out_exporters.old ∷ out_packages.old ∷ out_versions.old ∷ [])) }
{
    count_value(resolve(
        graph,
        location,
        exporters,
        packages,
        versions,
        out_exporters,
        out_packages,
        out_versions,
    ))
}

// The services among the candidates that a bundle sees.
pub fn region_service_find(graph: &Graph, out: &mut [u32], location: u32, candidates: &[u32]) -> u64
    requires { Valid graph.now }
    ensures { answered result out.new ≡ for_c kept_value (find_outcome (meaning graph.now) Kind.Service location candidates.now out.old) }
{
    count_value(service_find(graph, location, candidates, out))
}

// The listeners that see a bundle.
pub fn region_bundle_event(graph: &Graph, out: &mut [u32], listeners: &[u32], bundle: u32) -> u64
    requires { Valid graph.now }
    ensures { answered result out.new ≡ for_c kept_value (event_outcome (meaning graph.now) Kind.Bundle listeners.now bundle out.old) }
{
    count_value(bundle_event(graph, listeners, bundle, out))
}

// The listeners that see a service.
pub fn region_service_event(graph: &Graph, out: &mut [u32], listeners: &[u32], service: u32) -> u64
    requires { Valid graph.now }
    ensures { answered result out.new ≡ for_c kept_value (event_outcome (meaning graph.now) Kind.Service listeners.now service out.old) }
{
    count_value(service_event(graph, listeners, service, out))
}

// The image of the graph, and its length.
pub fn region_write(graph: &Graph, out: &mut [u8]) -> u64
    requires { Valid graph.now }
    ensures { answered result out.new ≡ for_c written_value (write_outcome (meaning graph.now) out.old) }
{
    count_value(write(graph, out))
}

// How many bytes the image of the graph takes.
pub fn region_image_length(graph: &Graph) -> u64
    requires { Valid graph.now }
    ensures { result ≡ length (image (meaning graph.now)) }
{
    image_length(graph) as u64
}

// Whether the bundle at a location sees an item in the graph of an archive.
pub fn region_archive_query(bytes: &[u8], location: u32, kind: u32, item: u32, version: u16) -> u32
    ensures { Queried bytes.now location kind item version result }
{
    query_value(archive_query(bytes, location, kind, item, version))
}
