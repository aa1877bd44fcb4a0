// The route call, the write and the query:
//   route LOCATION KIND ITEM VERSION LENGTH
//   write LENGTH
//   image
//   query LOCATION KIND ITEM VERSION
// LENGTH is how many bytes the buffer has. The query is of the file that stands.
use crate::buffers::{ROOM, bytes};
use crate::session::Session;
use region_archive::{HIDDEN, SEEN, archive_query};
use script_text::{Answer, Hex, value, version};
use std::io::Write;
use std::{fmt, io};

// How many connections a route has, or `hidden` where there is none.
#[derive(Clone, Copy)]
struct Length(Option<usize>);

impl fmt::Display for Length {
    fn fmt<W: fmt::Write>(&self, f: &mut fmt::Formatter<W>) -> fmt::Result {
        match self.0 {
            Some(count) => write!(f, "{count}"),
            None => f.write_str("hidden"),
        }
    }
}

impl Session {
    pub fn route<W: Write>(&self, out: &mut W, line: &[u8]) -> io::Result<()> {
        let mut room = bytes(self.alloc, value(line, 5) as usize)?;
        let answer = region_routes::route(
            &self.graph,
            value(line, 1),
            value(line, 2),
            value(line, 3),
            version(line, 4),
            &mut room,
        );
        writeln!(out, "{} {}", Answer(answer.map(Length)), Hex(&room))
    }

    pub fn write<W: Write>(&self, out: &mut W, line: &[u8]) -> io::Result<()> {
        let mut room = bytes(self.alloc, value(line, 1) as usize)?;
        let answer = region_archive::write(&self.graph, &mut room);
        writeln!(out, "{} {}", Answer(answer), Hex(&room))
    }

    // The image alone: what is written to a buffer that takes every image.
    pub fn image<W: Write>(&self, out: &mut W) -> io::Result<()> {
        let mut room = bytes(self.alloc, ROOM)?;
        match region_archive::write(&self.graph, &mut room) {
            Ok(length) => {
                room.truncate(length);
                writeln!(out, "{}", Hex(&room))
            }
            Err(refusal) => writeln!(out, "{}", refusal.number()),
        }
    }

    pub fn query<W: Write>(&self, out: &mut W, line: &[u8]) -> io::Result<()> {
        let answer = archive_query(
            &self.files.file,
            value(line, 1),
            value(line, 2),
            value(line, 3),
            version(line, 4),
        );
        let number = match answer {
            Ok(true) => SEEN,
            Ok(false) => HIDDEN,
            Err(refusal) => refusal.number(),
        };
        writeln!(out, "{number}")
    }
}
