// The changing lines:
//   add REGION
//   remove REGION
//   install REGION LOCATION PACKAGES VERSIONS SERVICES
//   uninstall LOCATION
//   connect SOURCE TARGET BUNDLES PACKAGES LOWEST HIGHEST SERVICES
//   disconnect SOURCE TARGET
//   start empty
//   read, lent or over
// The last three read the file that stands: anew, over the graph at hand, and over the graph of the base.

use crate::buffers::{numbers, versions};
use crate::session::Session;
use region_archive::{read_anew, read_over};
use region_graph::refusals::Refusal;
use region_graph::{BundleLists, EntryList, FilterLists, Graph, PackageList, PartList};
use script_text::{value, word};
use std::alloc::AllocError;
use std::io;
use std::io::Write;

// Room for the numbers of a list: more than a list may have.
const ROOM: usize = 20;

// What a line that is no call is answered with.
const NOT_A_CALL: u32 = 999;

// A part of a filter: everything where the word is the flag "all", else a list.
fn part<T: Copy>(word: &[u8], list: T) -> PartList<T> {
    if word.first() == Some(&b'*') {
        PartList::Everything
    } else {
        PartList::Listed(list)
    }
}

impl Session {
    fn install(&mut self, line: &[u8]) -> Result<Result<(), Refusal>, AllocError> {
        let packages = numbers(self.alloc, word(line, 3), ROOM)?;
        let of = versions(self.alloc, word(line, 4), ROOM)?;
        let services = numbers(self.alloc, word(line, 5), ROOM)?;
        let lists = BundleLists {
            packages: PackageList {
                numbers: &packages,
                versions: &of,
            },
            services: &services,
        };
        Ok(self.graph.install(value(line, 1), value(line, 2), lists))
    }

    fn connect(&mut self, line: &[u8]) -> Result<Result<(), Refusal>, AllocError> {
        let bundles = numbers(self.alloc, word(line, 3), ROOM)?;
        let packages = numbers(self.alloc, word(line, 4), ROOM)?;
        let lowest = versions(self.alloc, word(line, 5), ROOM)?;
        let highest = versions(self.alloc, word(line, 6), ROOM)?;
        let services = numbers(self.alloc, word(line, 7), ROOM)?;
        let entries = EntryList {
            numbers: &packages,
            lowest: &lowest,
            highest: &highest,
        };
        let filter = FilterLists {
            bundles: &bundles,
            packages: part(word(line, 4), entries),
            services: part(word(line, 7), services.as_slice()),
        };
        Ok(self.graph.connect(value(line, 1), value(line, 2), filter))
    }

    fn read_over_base(&mut self) -> Result<(), Refusal> {
        let _base = read_anew(&mut self.graph, &self.files.base);
        read_over(&mut self.graph, &self.files.file)
    }

    // The number of a call: 0, or that of its refusal.
    pub fn change<W: Write>(&mut self, out: &mut W, line: &[u8]) -> io::Result<()> {
        let answer = match word(line, 0) {
            b"add" => self.graph.add_region(value(line, 1)),
            b"remove" => self.graph.remove_region(value(line, 1)),
            b"install" => self.install(line)?,
            b"uninstall" => self.graph.uninstall(value(line, 1)),
            b"connect" => self.connect(line)?,
            b"disconnect" => self.graph.disconnect(value(line, 1), value(line, 2)),
            b"start" => {
                self.graph = Graph::empty();
                Ok(())
            }
            b"read" => read_anew(&mut self.graph, &self.files.file),
            b"lent" => read_over(&mut self.graph, &self.files.file),
            b"over" => self.read_over_base(),
            _ => return writeln!(out, "{NOT_A_CALL}"),
        };
        let number = answer.map_or_else(Refusal::number, |()| 0);
        writeln!(out, "{number}")
    }
}
