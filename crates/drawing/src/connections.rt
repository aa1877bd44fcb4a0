// The connections as arrows. What a filter passes stands in a small box on the arrow: the label of an arrow may be crossed by another
// arrow, a box is not.
use crate::picture::Picture;
use crate::text::{Colour, Kind, List, Names, first};
use region_graph::size::EVERYTHING;
use region_graph::{Entries, Numbers, StoredConnection};
use std::io;
use std::io::Write;

// A part that is everything.
fn show_all<W: Write>(out: &mut W, kind: Kind) -> io::Result<()> {
    write!(out, "all {kind}s\\l")
}

// The bundle part or the service part of a filter.
fn show_part<W: Write>(out: &mut W, part: &Numbers, names: Names, kind: Kind) -> io::Result<()> {
    if part.count == EVERYTHING {
        return show_all(out, kind);
    }
    let numbers = first(&part.items, part.count);
    List::of_numbers(kind, "", numbers).show(out, names)
}

// The package part.
fn show_packages<W: Write>(out: &mut W, part: &Entries, names: Names) -> io::Result<()> {
    if part.count == EVERYTHING {
        return show_all(out, Kind::Package);
    }
    let list = List {
        kind: Kind::Package,
        margin: "",
        numbers: first(&part.numbers, part.count),
        lowest: &part.lowest,
        highest: &part.highest,
    };
    list.show(out, names)
}

fn show_filter<W: Write>(out: &mut W, c: &StoredConnection, names: Names) -> io::Result<()> {
    if c.bundles.count == 0 && c.packages.count == 0 && c.services.count == 0 {
        out.write_all(b"nothing\\l")?;
    }
    show_part(out, &c.bundles, names, Kind::Bundle)?;
    show_packages(out, &c.packages, names)?;
    show_part(out, &c.services, names, Kind::Service)
}

// The box, with the two ends and what passes.
fn show_label<W: Write>(out: &mut W, c: &StoredConnection, names: Names) -> io::Result<()> {
    let source = c.source;
    let target = c.target;
    let colour = Colour(source);
    write!(
        out,
        "  \"{source}-{target}\" [{colour}, label=\"{source} -> {target}\\l"
    )?;
    show_filter(out, c, names)?;
    out.write_all(b"\"];\n")
}

// The line from the source to the box, and the arrow from there to the target.
fn show_arrow<W: Write>(out: &mut W, c: &StoredConnection) -> io::Result<()> {
    let source = c.source;
    let target = c.target;
    let colour = Colour(source);
    writeln!(
        out,
        "  {source} -> \"{source}-{target}\" [{colour}, arrowhead=none];"
    )?;
    writeln!(out, "  \"{source}-{target}\" -> {target} [{colour}];")
}

impl Picture<'_> {
    pub fn show_connections<W: Write>(&self, out: &mut W) -> io::Result<()> {
        for c in self.graph.connections() {
            show_label(out, c, self.names)?;
            show_arrow(out, c)?;
        }
        Ok(())
    }
}
