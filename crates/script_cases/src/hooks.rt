// The hooks:
//   bfind or sfind LOCATION PLACES CANDIDATES
//   resolve LOCATION PLACES,PLACES,PLACES EXPORTERS PACKAGES VERSIONS
//   bevent or sevent PLACES ITEM LISTENERS
// PLACES is how many places the buffer has; resolve has three.
use crate::buffers::{Listed, PLACES, numbers, places, version_places, versions};
use crate::session::Session;
use region_graph::refusals::Refusal;
use region_routes::{bundle_event, bundle_find, service_event, service_find};
use script_text::{Answer, value, word};
use std::io;
use std::io::Write;

impl Session {
    // The hook of a line but resolve, with its candidates or listeners.
    fn kept(&self, line: &[u8], numbers: &[u32], places: &mut [u32]) -> Result<usize, Refusal> {
        let graph = &self.graph;
        let location = value(line, 1);
        let item = value(line, 2);
        match word(line, 0) {
            b"bfind" => bundle_find(graph, location, numbers, places),
            b"sfind" => service_find(graph, location, numbers, places),
            b"bevent" => bundle_event(graph, numbers, item, places),
            _ => service_event(graph, numbers, item, places),
        }
    }

    // The hook of a line on a buffer of so many places, with its answer.
    pub fn hook<W: Write>(&self, out: &mut W, line: &[u8], count: u32) -> io::Result<()> {
        let given = numbers(self.alloc, word(line, 3), PLACES)?;
        let mut room = places(self.alloc, count)?;
        let answer = self.kept(line, &given, &mut room);
        writeln!(out, "{} {}", Answer(answer), Listed(&room))
    }

    // Resolve, with its answer. The answer has the places of all buffers.
    pub fn resolve<W: Write>(&self, out: &mut W, line: &[u8]) -> io::Result<()> {
        let counts = numbers(self.alloc, word(line, 2), 3)?;
        let mut counts = counts.iter().copied();
        let exporters = numbers(self.alloc, word(line, 3), PLACES)?;
        let packages = numbers(self.alloc, word(line, 4), PLACES)?;
        let of = versions(self.alloc, word(line, 5), PLACES)?;
        let mut out_exporters = places(self.alloc, counts.next().unwrap_or(0))?;
        let mut out_packages = places(self.alloc, counts.next().unwrap_or(0))?;
        let mut out_versions = version_places(self.alloc, counts.next().unwrap_or(0))?;
        let answer = region_routes::resolve(
            &self.graph,
            value(line, 1),
            &exporters,
            &packages,
            &of,
            &mut out_exporters,
            &mut out_packages,
            &mut out_versions,
        );
        let answer = Answer(answer);
        let exporters = Listed(&out_exporters);
        let packages = Listed(&out_packages);
        let of = Listed(&out_versions);
        writeln!(out, "{answer} {exporters} {packages} {of}")
    }
}
