// The reader: the front of the file, then its body as lists of numbers, and the graph of these.
ghost use Rattle.std.specs.Prelude.{◌≡◌};
ghost use Rattle.region_graph.specs.Record.{Valid};
ghost use Rattle.region_graph.specs.Calls.{first_no};
ghost use Rattle.region_graph.specs.Refusals.{answer_number};
ghost use Rattle.region_graph.specs.Promise.{changed};
ghost use Rattle.region_archive.specs.File.{oldest, opens, front_questions};
ghost use Rattle.region_archive.specs.Image.{latest};
ghost use Rattle.region_archive.specs.Promise.{Given, Reads, ReadsOver};

use crate::FRONT;
use crate::record_fields::Section;
use crate::sections::{regions_at, section_at};
use crate::version::{LATEST, OLDEST, has_version};
use big_endian::number_at;
use region_graph::Graph;
use region_graph::flat::{BUNDLE_WIDTH, CONNECTION_WIDTH};
use region_graph::refusals::Refusal;
use region_graph::size::{MOST_BUNDLES, MOST_CONNECTIONS, REGIONS};

// Whether bytes have the front of an archive, of a version from an oldest to a latest.
pub fn opens(bytes: &[u8], oldest: usize, latest: usize) -> bool
    ensures { result ≡ opens oldest latest bytes.now }
{
    FRONT <= bytes.len() && oldest <= usize::from(bytes[0]) && usize::from(bytes[0]) <= latest
}

// Whether the version and the length field are those of an archive.
fn front(bytes: &[u8]) -> Result<(), Refusal>
    ensures { answer_number result ≡ first_no (front_questions oldest latest bytes.now) }
{
    if !opens(bytes, OLDEST, LATEST) {
        return Err(Refusal::NotAnArchive);
    }
    match number_at(bytes, 1, 4) {
        Some(size) if size.value as usize == bytes.len() - FRONT => Ok(()),
        _ => Err(Refusal::WrongLength),
    }
}

// Makes a graph the one whose image the bytes are; on a refusal it stays as it was. It is one function and a call of its own, and those that
// need a graph for a while lend it one: so the stack holds no more graphs than it must.
#[inline(never)]
pub fn read_over(graph: &mut Graph, bytes: &[u8]) -> Result<(), Refusal>
    requires { Valid graph.old }
    ensures { ReadsOver graph.old bytes.now (record { graph = graph.new; number = answer_number result }) }
{
    front(bytes)?;
    let version = usize::from(bytes[0]);
    let mut list = [0u32; REGIONS];
    let mut bundle_rows = [0u64; MOST_BUNDLES * BUNDLE_WIDTH];
    let mut connection_rows = [0u64; MOST_CONNECTIONS * CONNECTION_WIDTH];
    let Some(regions) = regions_at(bytes, FRONT, &mut list) else {
        return Err(Refusal::BrokenLayout);
    };
    let set = regions.value.set;
    if !has_version(set, version) {
        return Err(Refusal::BrokenLayout);
    }
    let kind = Section::Bundles(version);
    let Some(bundles) = section_at(bytes, regions.next, kind, set, &mut bundle_rows) else {
        return Err(Refusal::BrokenLayout);
    };
    let kind = Section::Connections(version);
    let Some(connections) = section_at(bytes, bundles.next, kind, set, &mut connection_rows) else {
        return Err(Refusal::BrokenLayout);
    };
    if connections.next != bytes.len() {
        return Err(Refusal::BrokenLayout);
    }
    match Graph::of_flat(
        &list[..regions.value.count],
        &bundle_rows[..bundles.value],
        &connection_rows[..connections.value],
    ) {
        Ok(archive) => {
            *graph = archive;
            Ok(())
        }
        Err(refusal) => Err(refusal),
    }
}

// Makes a graph the one whose image the bytes are, and on a refusal the empty one.
pub fn read_anew(graph: &mut Graph, bytes: &[u8]) -> Result<(), Refusal>
    ensures { Reads bytes.now (changed result graph.new) }
{
    *graph = Graph::empty();
    read_over(graph, bytes)
}

// The graph whose image the bytes are.
pub fn read(bytes: &[u8]) -> Result<Graph, Refusal>
    ensures { Given bytes.now result }
{
    let mut graph = Graph::empty();
    read_over(&mut graph, bytes)?;
    Ok(graph)
}
