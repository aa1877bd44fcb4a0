// The queries of the lent record, and that of a lent archive. A name that ends in a version has the arguments that came with that
// version of the interface.
ghost use Rattle.std.specs.Prelude.{◌≡◌, [], ◌∷◌, length};
ghost use Rattle.region_graph.specs.Record.{Valid, meaning};
ghost use Rattle.region_routes.specs.Hooks.{route_outcome, find_outcome, event_outcome};
ghost use Rattle.region_routes.specs.Resolve.{candidates, resolve_outcome};
ghost use Rattle.region_routes.specs.declared.Kind.TheVariants as Kind;
ghost use Rattle.region_archive.specs.Image.{image};
ghost use Rattle.region_archive.specs.Promise.{Queried, write_outcome};
ghost use Rattle.region_host.specs.CNumbers.{answered, for_c, routed_value, kept_value, written_value};

use region_graph::Graph;

#[unsafe(no_mangle)]
pub extern "C" fn region_route_v4(
    graph: &Graph,
    out: &mut [u8],
    location: u32,
    kind: u32,
    item: u32,
    version: u16,
) -> u64
    requires { Valid graph.now }
    ensures { answered result out.new ≡ for_c routed_value (route_outcome (meaning graph.now) location kind item version out.old) }
{
    region_host::region_route_v4(graph, out, location, kind, item, version)
}

#[unsafe(no_mangle)]
pub extern "C" fn region_bundle_find(
    graph: &Graph,
    out: &mut [u32],
    location: u32,
    candidates: &[u32],
) -> u64
    requires { Valid graph.now }
    ensures { answered result out.new ≡ for_c kept_value (find_outcome (meaning graph.now) Kind.Bundle location candidates.now out.old) }
{
    region_host::region_bundle_find(graph, out, location, candidates)
}

#[unsafe(no_mangle)]
pub extern "C" fn region_resolve_v4(
    graph: &Graph,
    out_exporters: &mut [u32],
    out_packages: &mut [u32],
    out_versions: &mut [u16],
    location: u32,
    exporters: &[u32],
    packages: &[u32],
    versions: &[u16],
) -> u64
    requires { Valid graph.now }
    ensures { answered result (out_exporters.new ∷ out_packages.new ∷ out_versions.new ∷ []) ≡ for_c kept_value (resolve_outcome (meaning graph.now) location (candidates exporters.now packages.now versions.now) (out_exporters.old ∷ out_packages.old ∷ out_versions.old ∷ [])) }
{
    region_host::region_resolve_v4(
        graph,
        out_exporters,
        out_packages,
        out_versions,
        location,
        exporters,
        packages,
        versions,
    )
}

#[unsafe(no_mangle)]
pub extern "C" fn region_service_find(
    graph: &Graph,
    out: &mut [u32],
    location: u32,
    candidates: &[u32],
) -> u64
    requires { Valid graph.now }
    ensures { answered result out.new ≡ for_c kept_value (find_outcome (meaning graph.now) Kind.Service location candidates.now out.old) }
{
    region_host::region_service_find(graph, out, location, candidates)
}

#[unsafe(no_mangle)]
pub extern "C" fn region_bundle_event(
    graph: &Graph,
    out: &mut [u32],
    listeners: &[u32],
    bundle: u32,
) -> u64
    requires { Valid graph.now }
    ensures { answered result out.new ≡ for_c kept_value (event_outcome (meaning graph.now) Kind.Bundle listeners.now bundle out.old) }
{
    region_host::region_bundle_event(graph, out, listeners, bundle)
}

#[unsafe(no_mangle)]
pub extern "C" fn region_service_event(
    graph: &Graph,
    out: &mut [u32],
    listeners: &[u32],
    service: u32,
) -> u64
    requires { Valid graph.now }
    ensures { answered result out.new ≡ for_c kept_value (event_outcome (meaning graph.now) Kind.Service listeners.now service out.old) }
{
    region_host::region_service_event(graph, out, listeners, service)
}

#[unsafe(no_mangle)]
pub extern "C" fn region_write(graph: &Graph, out: &mut [u8]) -> u64
    requires { Valid graph.now }
    ensures { answered result out.new ≡ for_c written_value (write_outcome (meaning graph.now) out.old) }
{
    region_host::region_write(graph, out)
}

#[unsafe(no_mangle)]
pub extern "C" fn region_image_length(graph: &Graph) -> u64
    requires { Valid graph.now }
    ensures { result ≡ length (image (meaning graph.now)) }
{
    region_host::region_image_length(graph)
}

#[unsafe(no_mangle)]
pub extern "C" fn region_archive_query(
    bytes: &[u8],
    location: u32,
    kind: u32,
    item: u32,
    version: u16,
) -> u32
    ensures { Queried bytes.now location kind item version result }
{
    region_host::region_archive_query(bytes, location, kind, item, version)
}
