// Prints the graph of an archive as text of Graphviz. The archive comes on standard input; an argument is the path of the name sheet, and
// without one numbers stand alone. An archive over 65,536 bytes is judged by its first 65,536.
//
// `refused` and a number is all that is printed where the archive is refused, with 15, 16 or 17, else where the sheet is broken, with 18.
// Where the sheet cannot be opened or has no room, that is said, and nothing else. A read or a write that fails ends the program with an
// error.
#![tactic(auto)]

mod connections;
mod picture;
mod regions;
mod text;

use name_sheet::locate;
use picture::Picture;
use region_archive::read;
use region_graph::refusals::Refusal;
use std::env::{Env, FillError};
use std::fs::File;
use std::io;
use std::io::{BufWriter, Read, Write};
use std::rt::Files;
use text::Names;

// How many bytes of the archive are judged.
const MOST: u64 = 65536;

// Room for a sheet and a byte more.
const ROOM: usize = 262144;

// Room for a path. One that has no room is the path of no file.
const PATH: usize = 4096;

fn show_refusal<W: Write>(out: &mut W, refusal: Refusal) -> io::Result<()> {
    let number = refusal.number();
    writeln!(out, "refused {number}")
}

// The picture, or a refusal. A lookup of any number tells whether the sheet is broken.
fn answer<W: Write>(out: &mut W, file: &[u8], sheet: &[u8]) -> io::Result<()> {
    let graph = match read(file) {
        Ok(graph) => graph,
        Err(refusal) => return show_refusal(out, refusal),
    };
    if matches!(locate(sheet, 0, 0), Err(Refusal::BrokenSheet)) {
        return show_refusal(out, Refusal::BrokenSheet);
    }
    let picture = Picture {
        graph: &graph,
        names: Names { sheet },
    };
    picture.show(out)
}

// What is said where the sheet cannot be opened.
fn show_unreadable<W: Write>(out: &mut W) -> io::Result<()> {
    out.write_all(b"sheet unreadable\n")
}

// The answer with the sheet at a path. A path that is no UTF-8 is that of no file.
fn answer_named<R: Files + Alloc, W: Write>(
    rt: &R,
    out: &mut W,
    file: &[u8],
    path: &[u8],
) -> io::Result<()> {
    let Ok(path) = str::from_utf8(path) else {
        return show_unreadable(out);
    };
    let Ok(from) = File::open(rt, path) else {
        return show_unreadable(out);
    };
    let mut sheet = Vec::new(rt.alloc());
    from.take(ROOM as u64).read_to_end(&mut sheet)?;
    if sheet.len() == ROOM {
        return out.write_all(b"sheet too long\n");
    }
    answer(out, file, sheet.as_slice())
}

// The answer with the sheet that has no entries.
fn answer_unnamed<W: Write>(out: &mut W, file: &[u8]) -> io::Result<()> {
    answer(out, file, &[1, 0, 0, 0, 0])
}

fn main(rt: HostRuntime) -> io::Result<()> {
    let mut file = Vec::new(rt.alloc());
    rt.reader().take(MOST).read_to_end(&mut file)?;
    let mut out = BufWriter::new(rt.alloc(), io::writer(&rt))?;
    let mut path = [0u8; PATH];
    match rt.arg(1, &mut path) {
        Ok(length) => answer_named(&rt, &mut out, file.as_slice(), &path[..length])?,
        Err(FillError::TooLong) => show_unreadable(&mut out)?,
        Err(FillError::NotPresent) => answer_unnamed(&mut out, file.as_slice())?,
    }
    out.flush()
}
