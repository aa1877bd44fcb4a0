// Converts the archives of a script, its file `stdin`, and writes a line for each conversion: its answer. The head of that file says how to
// write one. The file `stdout` has the answers.
#![tactic(auto)]

ghost use Rattle.std.specs.Prelude.{◌≤◌, vec_len, IfOk};

use region_convert::{back, forward};
use script_text::{Answer, Hex, append_hex, value, word};
use std::alloc::{AllocError, Global};
use std::io;
use std::io::{BufWriter, Read, Write};

// Room for the script. A longer one is obeyed as far as its first 65,536 bytes go.
const SCRIPT: u64 = 65536;

// Room for the bytes of an archive, and for those of a buffer.
const ROOM: usize = 1024;

// The value of each byte of a buffer before a conversion.
const BEFORE: u8 = 0xA5;

// The bytes that a text has in hex, as many as have room.
fn bytes_of(alloc: Global, text: &[u8]) -> Result<Vec<u8>, AllocError>
    ensures { IfOk result (λ bytes. vec_len bytes ≤ ROOM) }
{
    let mut bytes = Vec::new(alloc);
    append_hex(&mut bytes, text, ROOM)?;
    Ok(bytes)
}

// Answers a line about an archive: its number, the length of the new archive, and what the buffer holds.
fn convert<W: Write>(out: &mut W, alloc: Global, archive: &[u8], line: &[u8]) -> io::Result<()> {
    let mut room = vec![in alloc; BEFORE; ROOM.min(value(line, 1) as usize)]?;
    let written = match word(line, 0) {
        b"forward" => forward(archive, &mut room),
        _ => back(archive, &mut room),
    };
    writeln!(out, "{} {}", Answer(written), Hex(&room))
}

fn run<W: Write>(out: &mut W, alloc: Global, script: &[u8]) -> io::Result<()> {
    let mut archive = Vec::new(alloc);
    for line in script.split(|byte| *byte == b'\n') {
        match word(line, 0) {
            b"archive" => archive = bytes_of(alloc, word(line, 1))?,
            b"forward" | b"back" => convert(out, alloc, &archive, line)?,
            _ => {}
        }
    }
    Ok(())
}

// As in each program of a script: a shared one would bring the streams of the host into `script_text`.
fn main(rt: HostRuntime) -> io::Result<()> {
    let mut script = Vec::new(rt.alloc());
    rt.reader().take(SCRIPT).read_to_end(&mut script)?;
    let mut out = BufWriter::new(rt.alloc(), io::writer(&rt))?;
    run(&mut out, rt.alloc(), script.as_slice())?;
    out.flush()
}
