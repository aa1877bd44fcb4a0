// The file that stands, which calls read and query, and the base, a file over whose graph others are read.
ghost use Rattle.std.specs.Prelude.{◌≡◌, ◌+◌, ◌≤◌, vec_len};

use crate::buffers::ROOM;
use script_text::{append_hex, has_bytes, word};
use std::alloc::{AllocError, Global};

#[derive(Drop)]
pub struct Files {
    pub base: Vec<u8>,
    pub file: Vec<u8>,
}

impl Files {
    pub fn new(alloc: Global) -> Files
        ensures { (vec_len result.base ≡ 0) × (vec_len result.file ≡ 0) }
    {
        Files {
            base: Vec::new(alloc),
            file: Vec::new(alloc),
        }
    }

    // Follows a line: `archive` starts a file with no bytes, `keep` moves the file to the end of the base, a line that has bytes adds
    // them to the file. Base and file have so many bytes as there is room for.
    pub fn follow(&mut self, line: &[u8]) -> Result<(), AllocError>
        ensures { vec_len self.old.base + vec_len self.old.file ≤ ROOM → vec_len self.new.base + vec_len self.new.file ≤ ROOM }
    {
        match word(line, 0) {
            b"archive" => self.file.clear(),
            b"keep" => {
                self.base.extend_from_slice(&self.file)?;
                self.file.clear();
            }
            _ if has_bytes(line) => {
                let room = ROOM.saturating_sub(self.base.len());
                append_hex(&mut self.file, line, room)?;
            }
            _ => {}
        }
        Ok(())
    }
}
