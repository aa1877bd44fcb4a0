// The script, line by line.
use crate::files::Files;
use region_graph::Graph;
use script_text::{has_bytes, value, word};
use std::alloc::Global;
use std::io;
use std::io::Write;
use std::marker::Model;

// What the lines so far have made.
#[derive(Drop)]
pub struct Session {
    pub alloc: Global,
    pub graph: Graph,
    pub files: Files,
}

// A contract sees the graph alone, which is valid. The base and the file are inside the room.
impl Model for Session {
    ghost use Rattle.std.specs.Prelude.{◌+◌, ◌≤◌, vec_len};
    ghost use Rattle.region_graph.specs.Record.{Valid};
    ghost use Rattle.region_graph.specs.declared.Graph.{Graph};
    ghost use Rattle.script_cases.specs.declared.buffers.TheConstants.{ROOM};

    ghost Value = { Graph };

    ghost view = { λ s. s.graph };

    ghost invariant = { λ s. Valid s.graph × (vec_len s.files.base + vec_len s.files.file ≤ ROOM) };
}

// Whether a line has no answer: it is empty or a comment, or has bytes.
fn is_silent(line: &[u8]) -> bool {
    matches!(line.first(), None | Some(0 | b'#')) || has_bytes(line)
}

impl Session {
    fn new(alloc: Global) -> Session {
        Session {
            alloc,
            graph: Graph::empty(),
            files: Files::new(alloc),
        }
    }

    fn obey<W: Write>(&mut self, out: &mut W, line: &[u8]) -> io::Result<()> {
        match word(line, 0) {
            b"archive" | b"keep" => Ok(()),
            _ if is_silent(line) => Ok(()),
            b"route" => self.route(out, line),
            b"write" => self.write(out, line),
            b"image" => self.image(out),
            b"query" => self.query(out, line),
            b"bfind" | b"sfind" => self.hook(out, line, value(line, 2)),
            b"bevent" | b"sevent" => self.hook(out, line, value(line, 1)),
            b"resolve" => self.resolve(out, line),
            _ => self.change(out, line),
        }
    }
}

pub fn run<W: Write>(out: &mut W, alloc: Global, script: &[u8]) -> io::Result<()> {
    let mut session = Session::new(alloc);
    for line in script.split(|byte| *byte == b'\n') {
        session.obey(out, line)?;
        session.files.follow(line)?;
    }
    Ok(())
}
