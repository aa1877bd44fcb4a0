// The calls that change the lent record. A name that ends in a version has the arguments that came with that version of the
// interface; `region_empty` has the present version, so that a host of another one does not link.
ghost use Rattle.region_graph.specs.Model.{packages, entries};
ghost use Rattle.region_graph.specs.Calls.{Call};
ghost use Rattle.region_graph.specs.Record.{Valid};
ghost use Rattle.region_graph.specs.Promise.{Empty, Follows, new_bundle, new_connection};
ghost use Rattle.region_archive.specs.Promise.{ReadsOver};
ghost use Rattle.region_host.specs.CFlags.{passes_all};

use region_graph::Graph;

#[unsafe(no_mangle)]
pub extern "C" fn region_empty_v5(graph: &mut Graph)
    ensures { Empty graph.new }
{
    region_host::region_empty_v5(graph);
}

#[unsafe(no_mangle)]
pub extern "C" fn region_add(graph: &mut Graph, region: u32) -> u32
    requires { Valid graph.old }
    ensures { Follows graph.entry.now (Call.add_region region) (record { graph = graph.exit.now; number = result }) }
{
    region_host::region_add(graph, region)
}

#[unsafe(no_mangle)]
pub extern "C" fn region_remove(graph: &mut Graph, region: u32) -> u32
    requires { Valid graph.old }
    ensures { Follows graph.entry.now (Call.remove_region region) (record { graph = graph.exit.now; number = result }) }
{
    region_host::region_remove(graph, region)
}

#[unsafe(no_mangle)]
pub extern "C" fn region_install_v4(
    graph: &mut Graph,
    region: u32,
    location: u32,
    numbers: &[u32],
    versions: &[u16],
    services: &[u32],
) -> u32
    requires { Valid graph.old }
    ensures { Follows graph.entry.now (Call.install (new_bundle region location (packages numbers.now versions.now) services.now)) (record { graph = graph.exit.now; number = result }) }
{
    region_host::region_install_v4(graph, region, location, numbers, versions, services)
}

#[unsafe(no_mangle)]
pub extern "C" fn region_uninstall(graph: &mut Graph, location: u32) -> u32
    requires { Valid graph.old }
    ensures { Follows graph.entry.now (Call.uninstall location) (record { graph = graph.exit.now; number = result }) }
{
    region_host::region_uninstall(graph, location)
}

#[unsafe(no_mangle)]
pub extern "C" fn region_connect_v5(
    graph: &mut Graph,
    source: u32,
    target: u32,
    bundles: &[u32],
    pass_packages: u32,
    packages: &[u32],
    lowest: &[u16],
    highest: &[u16],
    pass_services: u32,
    services: &[u32],
) -> u32
    requires { Valid graph.old }
    ensures { Follows graph.entry.now (Call.connect (new_connection source target bundles.now (passes_all pass_packages) (entries packages.now lowest.now highest.now) (passes_all pass_services) services.now)) (record { graph = graph.exit.now; number = result }) }
{
    region_host::region_connect_v5(
        graph,
        source,
        target,
        bundles,
        pass_packages,
        packages,
        lowest,
        highest,
        pass_services,
        services,
    )
}

#[unsafe(no_mangle)]
pub extern "C" fn region_disconnect(graph: &mut Graph, source: u32, target: u32) -> u32
    requires { Valid graph.old }
    ensures { Follows graph.entry.now (Call.disconnect source target) (record { graph = graph.exit.now; number = result }) }
{
    region_host::region_disconnect(graph, source, target)
}

#[unsafe(no_mangle)]
pub extern "C" fn region_read(graph: &mut Graph, bytes: &[u8]) -> u32
    requires { Valid graph.old }
    ensures { ReadsOver graph.entry.now bytes.now (record { graph = graph.exit.now; number = result }) }
{
    region_host::region_read(graph, bytes)
}
