// The regions as boxes, each with its bundles and what these bring.
use crate::picture::Picture;
use crate::text::{Colour, Kind, List, Names, first};
use region_graph::StoredBundle;
use region_graph::region_set::has;
use region_graph::size::REGIONS;
use std::io;
use std::io::Write;

// How many bundles of a region are shown.
const MOST_SHOWN: usize = 12;

fn show_bundle<W: Write>(out: &mut W, b: &StoredBundle, names: Names) -> io::Result<()> {
    out.write_all(b"bundle ")?;
    names.show(out, Kind::Bundle, b.location)?;
    out.write_all(b"\\l")?;
    let packages = List {
        kind: Kind::Package,
        margin: "- ",
        numbers: first(&b.packages.numbers, b.packages.count),
        lowest: &b.packages.versions,
        highest: &[],
    };
    packages.show(out, names)?;
    let services = first(&b.services.items, b.services.count);
    List::of_numbers(Kind::Service, "- ", services).show(out, names)
}

// What is to be said after the bundles of a region that has so many.
fn show_rest<W: Write>(out: &mut W, count: usize) -> io::Result<()> {
    if count == 0 {
        out.write_all(b"no bundles\\l")?;
    }
    if MOST_SHOWN < count {
        let more = count - MOST_SHOWN;
        write!(out, "and {more} bundles more\\l")?;
    }
    Ok(())
}

impl Picture<'_> {
    fn show_region<W: Write>(&self, out: &mut W, region: u32) -> io::Result<()> {
        let colour = Colour(region);
        write!(out, "  {region} [{colour}, label=\"region ")?;
        self.names.show(out, Kind::Region, region)?;
        out.write_all(b"\\l\\l")?;
        let bundles = self.graph.bundles();
        let here = bundles.iter().filter(|b| b.region == region);
        for b in here.take(MOST_SHOWN) {
            show_bundle(out, b, self.names)?;
        }
        let here = bundles.iter().filter(|b| b.region == region);
        show_rest(out, here.count())?;
        out.write_all(b"\"];\n")
    }

    // Asks of each region number whether the set has it.
    pub fn show_regions<W: Write>(&self, out: &mut W) -> io::Result<()> {
        let set = self.graph.region_set();
        for region in 0..REGIONS as u32 {
            if has(set, region) {
                self.show_region(out, region)?;
            }
        }
        Ok(())
    }
}
