// Reads an archive on standard input and prints its listing. An input over 65,536 bytes is judged by its first 65,536.
#![tactic(auto)]

use region_listing::list_archive;
use std::io;
use std::io::{Read, Write};

// How many bytes of the input are judged.
const MOST: u64 = 65536;

fn main(rt: HostRuntime) -> io::Result<()> {
    let mut file = Vec::new(rt.alloc());
    rt.reader().take(MOST).read_to_end(&mut file)?;
    let text = list_archive(file.as_slice());
    let bytes = text.bytes;
    let length = text.length;
    io::writer(&rt).write_all(&bytes[..length])
}
