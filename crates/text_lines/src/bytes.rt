// Bytes put into a lent buffer.
ghost use Rattle.std.specs.Prelude.{◌≡◌, ◌+◌, leb};
ghost use Rattle.text_lines.specs.Outcome.{put, put_outcome};

// Whether so many bytes have room at a place of a buffer of a length.
pub fn has_room(length: usize, at: usize, count: usize) -> bool
    ensures { result ≡ leb (at + count) length }
{
    at <= length && count <= length - at
}

// Writes bytes; hands back the place after them.
pub fn put_bytes(buffer: &mut [u8], at: usize, bytes: &[u8]) -> usize
    ensures { put result buffer.new ≡ put_outcome buffer.old at bytes.now }
{
    if !has_room(buffer.len(), at, bytes.len()) {
        return at;
    }
    let next = at + bytes.len();
    buffer[at..next].copy_from_slice(bytes);
    next
}
