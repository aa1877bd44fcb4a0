// The picture: its head, the regions and the connections.
use crate::text::Names;
use region_graph::Graph;
use std::io;
use std::io::Write;
use std::marker::Model;

// What a picture is made of.
#[derive(Drop)]
pub struct Picture<'a> {
    pub graph: &'a Graph,
    pub names: Names<'a>,
}

// A contract sees the graph alone, which is valid.
impl<'a> Model for Picture<'a> {
    ghost use Rattle.region_graph.specs.Record.{Valid};
    ghost use Rattle.region_graph.specs.declared.Graph.{Graph};

    ghost Value = { Graph };

    ghost view = { λ p. p.graph.now };

    ghost invariant = { λ p. Valid p.graph.now };
}

// The layout, and how regions look.
fn show_head<W: Write>(out: &mut W) -> io::Result<()> {
    out.write_all(b"digraph regions {\n")?;
    out.write_all(
        b"  graph [rankdir=TB, nodesep=0.5, ranksep=0.5, labelloc=t, fontname=\"Helvetica\", fontsize=12];\n",
    )?;
    out.write_all(
        b"  node [shape=box, fontname=\"Helvetica\", style=\"rounded,filled\", fillcolor=\"#f4f4f4\", fontsize=12, margin=\"0.25,0.12\", penwidth=1.5];\n",
    )?;
    out.write_all(b"  edge [penwidth=1.3];\n")
}

impl Picture<'_> {
    // What the picture has, and how to read it.
    fn show_title<W: Write>(&self, out: &mut W) -> io::Result<()> {
        let set = self.graph.region_set();
        if set == 0 {
            return out.write_all(b"  label=\"no regions\";\n");
        }
        let regions = set.count_ones();
        let bundles = self.graph.bundle_count();
        let connections = self.graph.connection_count();
        write!(
            out,
            "  label=\"regions: {regions}, bundles: {bundles}, connections: {connections}"
        )?;
        out.write_all(
            b"\\nAn arrow leads from a region to one that it imports from;\\nthe box on it shows what its filter passes.\\n \";\n",
        )
    }

    // The picture. The boxes on arrows, which come after the regions, have a look of their own.
    pub fn show<W: Write>(&self, out: &mut W) -> io::Result<()> {
        show_head(out)?;
        self.show_title(out)?;
        self.show_regions(out)?;
        out.write_all(
            b"  node [style=filled, fillcolor=white, fontsize=10, margin=\"0.25,0.06\", penwidth=0.8];\n",
        )?;
        self.show_connections(out)?;
        out.write_all(b"}\n")
    }
}
