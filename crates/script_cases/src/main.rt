// Runs the three layers on a script of calls, its file `stdin`, and writes a line for each call: its answer. The head of that file says
// how to write one. The file `stdout` has the answers: those that the papers give to the cases that are written by hand, then those that a
// second program of another author gave.
#![tactic(auto)]

mod asks;
mod buffers;
mod calls;
mod files;
mod hooks;
mod session;

use std::io;
use std::io::{BufWriter, Read, Write};

// Room for the script. A longer one is obeyed as far as its first 131,072 bytes go.
const ROOM: usize = 131072;

// As in each program of a script: a shared one would bring the streams of the host into `script_text`.
fn main(rt: HostRuntime) -> io::Result<()> {
    let mut script = Vec::new(rt.alloc());
    rt.reader().take(ROOM as u64).read_to_end(&mut script)?;
    let mut out = BufWriter::new(rt.alloc(), io::writer(&rt))?;
    session::run(&mut out, rt.alloc(), script.as_slice())?;
    out.flush()
}
