// The listing of an archive as text: for each bundle how many different bundles, packages and services it sees.
ghost use Rattle.std.specs.Prelude.{◌≡◌, ◌+◌, ◌≤◌, length, replicate};
ghost use Rattle.region_graph.specs.Record.{Valid, meaning};
ghost use Rattle.region_graph.specs.Refusals.{refusal_number};
ghost use Rattle.text_lines.specs.Written.{WrittenAt};
ghost use Rattle.region_listing.specs.Listing.{«line_of», listing_text, refusal_text, ArchiveListed, longest_text};

use crate::counts::seen;
use region_archive::read;
use region_graph::Graph;
use region_graph::refusals::Refusal;
use region_graph::size::MOST_BUNDLES;
use region_routes::Kind;
use text_lines::{put_bytes, put_field};

// The bytes of the header, and the most bytes of a line.
const HEADER: usize = 39;

const LINE: usize = 25;

pub const LONGEST: usize = HEADER + MOST_BUNDLES * LINE;

// A text in the first places, and 0 in each other place. There is no heap: it has places for the longest text.
#[derive(Clone, Copy)]
pub struct Text {
    pub length: usize,
    pub bytes: [u8; LONGEST],
}

// The numbers of a line.
#[derive(Clone, Copy)]
struct Row {
    location: u32,
    region: u32,
    bundles: u32,
    packages: u32,
    services: u32,
}

// Writes a line.
fn put_row(buffer: &mut [u8], at: usize, row: Row) -> usize
    requires { at + length (line_of row.location row.region row.bundles row.packages row.services) ≤ length buffer.old }
    ensures { WrittenAt buffer.old buffer.new at (line_of row.location row.region row.bundles row.packages row.services) result }
{
    let a = put_field(buffer, at, row.location, b' ');
    let b = put_field(buffer, a, row.region, b' ');
    let c = put_field(buffer, b, row.bundles, b' ');
    let d = put_field(buffer, c, row.packages, b' ');
    put_field(buffer, d, row.services, b'\n')
}

// Writes the header, and the line of each bundle.
fn put_listing(buffer: &mut [u8], graph: &Graph) -> usize
    requires valid { Valid graph.now }
    requires longest_text_in_bounds { longest_text ≤ length buffer.old }
    ensures { WrittenAt buffer.old buffer.new 0 (listing_text (meaning graph.now)) result }
{
    let bundles = seen(graph, Kind::Bundle);
    let packages = seen(graph, Kind::Package);
    let services = seen(graph, Kind::Service);
    let mut at = put_bytes(buffer, 0, b"asker region bundles packages services\n");
    for b in graph.bundles() {
        let r = b.region as usize;
        let row = Row {
            location: b.location,
            region: b.region,
            bundles: bundles[r],
            packages: packages[r],
            services: services[r],
        };
        at = put_row(buffer, at, row);
    }
    at
}

// Writes that a file is refused, with the number.
fn put_refusal(buffer: &mut [u8], refusal: Refusal) -> usize
    requires { longest_text ≤ length buffer.old }
    ensures { WrittenAt buffer.old buffer.new 0 (refusal_text (refusal_number refusal)) result }
{
    let at = put_bytes(buffer, 0, b"refused ");
    put_field(buffer, at, refusal.number(), b'\n')
}

// The places of a text, each 0.
fn blank() -> [u8; LONGEST]
    ensures { result ≡ replicate longest_text 0 }
{
    [0; LONGEST]
}

// The listing of an archive, or the number of its refusal.
pub fn list_archive(bytes: &[u8]) -> Text
    ensures { ArchiveListed bytes.now result }
{
    let archive = read(bytes);
    let mut text = blank();
    let length = match &archive {
        Ok(graph) => put_listing(&mut text, graph),
        Err(refusal) => put_refusal(&mut text, *refusal),
    };
    Text {
        length,
        bytes: text,
    }
}
