// The calls that change the lent record. A name that ends in a version has the arguments that came with that version of the
// interface; `region_empty` has the present version, so that a host of another one does not link. Each hands back the number of its
// answer.
ghost use Rattle.std.specs.Prelude.{◌≡◌};
ghost use Rattle.region_graph.specs.Lists.{pick};
ghost use Rattle.region_graph.specs.Model.{packages, entries};
ghost use Rattle.region_graph.specs.Calls.{Call};
ghost use Rattle.region_graph.specs.Record.{Valid};
ghost use Rattle.region_graph.specs.Promise.{Empty, Follows, new_bundle, new_connection};
ghost use Rattle.region_graph.specs.declared.PartList.{PartList};
ghost use Rattle.region_archive.specs.Promise.{ReadsOver};
ghost use Rattle.region_host.specs.CFlags.{passes_all};

use crate::answers::call_number;
use region_archive::read_over;
use region_graph::{BundleLists, EntryList, FilterLists, Graph, PackageList, PartList};

// Makes the record the one with nothing in it, whatever it was.
pub fn region_empty_v5(graph: &mut Graph)
    ensures { Empty graph.new }
{
    *graph = Graph::empty();
}

pub fn region_add(graph: &mut Graph, region: u32) -> u32
    requires { Valid graph.old }
    ensures { Follows graph.entry.now (Call.add_region region) (record { graph = graph.exit.now; number = result }) }
{
    call_number(graph.add_region(region))
}

pub fn region_remove(graph: &mut Graph, region: u32) -> u32
    requires { Valid graph.old }
    ensures { Follows graph.entry.now (Call.remove_region region) (record { graph = graph.exit.now; number = result }) }
{
    call_number(graph.remove_region(region))
}

pub fn region_install_v4(
    graph: &mut Graph,
    region: u32,
    location: u32,
    numbers: &[u32],
    versions: &[u16],
    services: &[u32],
) -> u32
    requires { Valid graph.old }
    ensures { Follows graph.entry.now (Call.install (new_bundle region location (packages numbers.now versions.now) services.now)) (record { graph = graph.exit.now; number = result }) }
{
    let lists = BundleLists {
        packages: PackageList { numbers, versions },
        services,
    };
    call_number(graph.install(region, location, lists))
}

pub fn region_uninstall(graph: &mut Graph, location: u32) -> u32
    requires { Valid graph.old }
    ensures { Follows graph.entry.now (Call.uninstall location) (record { graph = graph.exit.now; number = result }) }
{
    call_number(graph.uninstall(location))
}

// A part passes everything where its number is this one.
const PASS_ALL: u32 = 1;

// A part of a filter as C hands it in: what is listed, unless its number says everything.
fn part<T: Copy>(pass: u32, listed: T) -> PartList<T>
    ensures { result ≡ pick (passes_all pass) PartList.Everything (PartList.Listed listed) }
{
    if pass == PASS_ALL {
        PartList::Everything
    } else {
        PartList::Listed(listed)
    }
}

pub fn region_connect_v5(
    graph: &mut Graph,
    source: u32,
    target: u32,
    bundles: &[u32],
    pass_packages: u32,
    packages: &[u32],
    lowest: &[u16],
    highest: &[u16],
    pass_services: u32,
    services: &[u32],
) -> u32
    requires { Valid graph.old }
    ensures { Follows graph.entry.now (Call.connect (new_connection source target bundles.now (passes_all pass_packages) (entries packages.now lowest.now highest.now) (passes_all pass_services) services.now)) (record { graph = graph.exit.now; number = result }) }
{
    let listed = EntryList {
        numbers: packages,
        lowest,
        highest,
    };
    let filter = FilterLists {
        bundles,
        packages: part(pass_packages, listed),
        services: part(pass_services, services),
    };
    call_number(graph.connect(source, target, filter))
}

pub fn region_disconnect(graph: &mut Graph, source: u32, target: u32) -> u32
    requires { Valid graph.old }
    ensures { Follows graph.entry.now (Call.disconnect source target) (record { graph = graph.exit.now; number = result }) }
{
    call_number(graph.disconnect(source, target))
}

// The record becomes the graph whose image the bytes are; a refused read leaves it as it was.
pub fn region_read(graph: &mut Graph, bytes: &[u8]) -> u32
    requires { Valid graph.old }
    ensures { ReadsOver graph.entry.now bytes.now (record { graph = graph.exit.now; number = result }) }
{
    call_number(read_over(graph, bytes))
}
