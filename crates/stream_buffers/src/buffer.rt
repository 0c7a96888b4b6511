//! Bytes by position in a buffer: position p lies at p modulo the buffer's length.
ghost use Rattle.std.specs.Prelude.{◌≡◌, ◌+◌, ◌≤◌, length};
ghost use Rattle.stream_buffers.specs.Spans.{Writes};

/// How many bytes lie in a buffer: one more than in the widest window.
pub(crate) const BUFFER_LENGTH: u64 = 65_536;

/// Writes the bytes of a piece that begins at position `low` at the positions from `from` to below
/// `to`.
pub(crate) fn write(buffer: &mut [u8], low: u64, piece: &[u8], from: u64, to: u64)
    requires size { length buffer.old ≡ 65536 }
    requires begins { low ≤ from }
    requires ends { to ≤ low + length piece.now }
    ensures { Writes buffer.old buffer.new from to low piece.now }
{
    for position in from..to {
        buffer[(position % BUFFER_LENGTH) as usize] = piece[(position - low) as usize];
    }
}
