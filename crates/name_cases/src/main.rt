// Looks names up in the sheets of a script, its file `stdin`, and writes a line for each lookup: its answer. The head of that file says how
// to write one. The file `stdout` has the answers.
#![tactic(auto)]

ghost use Rattle.std.specs.Prelude.{◌≤◌, vec_len};

use name_sheet::{locate, lookup, lookup_part};
use region_graph::refusals::Refusal;
use script_text::{Hex, append_hex, has_bytes, value, word};
use std::alloc::Global;
use std::io;
use std::io::{BufWriter, Read, Write};

// Room for the script. A longer one is obeyed as far as its first 65,536 bytes go.
const SCRIPT: u64 = 65536;

// Room for the bytes of a sheet.
const ROOM: usize = 4096;

// Where the name of a kind and number starts in the sheet, and the name. A script asks for any kind number.
fn found(sheet: &[u8], kind: u32, number: u32) -> Result<(usize, &[u8]), Refusal> {
    Ok((
        locate(sheet, kind, number)?.start,
        lookup(sheet, kind, number)?,
    ))
}

// The answer to a lookup: its number, and of the part where it starts, its length and its bytes. A refused one has an empty part at 0.
fn answer<W: Write>(out: &mut W, sheet: &[u8], kind: u32, number: u32) -> io::Result<()> {
    match found(sheet, kind, number) {
        Ok((start, name)) => writeln!(out, "0 {start} {} {}", name.len(), Hex(name)),
        Err(refusal) => {
            let (part, _) = lookup_part(sheet, kind, number);
            writeln!(out, "{} 0 {} {}", refusal.number(), part.len(), Hex(part))
        }
    }
}

// Obeys a line on the sheet: `lookup` answers, `sheet` starts one with no bytes, a line that has bytes adds them, as many as have room.
fn obey<W: Write>(out: &mut W, sheet: &mut Vec<u8>, line: &[u8]) -> io::Result<()>
    ensures { vec_len sheet.old ≤ ROOM → vec_len sheet.new ≤ ROOM }
{
    match word(line, 0) {
        b"lookup" => answer(out, sheet, value(line, 1), value(line, 2))?,
        b"sheet" => sheet.clear(),
        _ if has_bytes(line) => append_hex(sheet, line, ROOM)?,
        _ => {}
    }
    Ok(())
}

fn run<W: Write>(out: &mut W, alloc: Global, script: &[u8]) -> io::Result<()> {
    let mut sheet = Vec::with_capacity(alloc, ROOM)?;
    for line in script.split(|byte| *byte == b'\n') {
        obey(out, &mut sheet, line)?;
    }
    Ok(())
}

// As in each program of a script: a shared one would bring the streams of the host into `script_text`.
fn main(rt: HostRuntime) -> io::Result<()> {
    let mut script = Vec::new(rt.alloc());
    rt.reader().take(SCRIPT).read_to_end(&mut script)?;
    let mut out = BufWriter::new(rt.alloc(), io::writer(&rt))?;
    run(&mut out, rt.alloc(), script.as_slice())?;
    out.flush()
}
