//! The caller's buffers.
ghost use Rattle.std.specs.Prelude.{◌≡◌, ◌<◌, ◌≤◌, length, slice_set};
ghost use Rattle.firthnapkin_results.specs.Answers.{Begins};
ghost use Rattle.firthnapkin_results.specs.Builders.{with_written};

use crate::status::BUFFER_TOO_SMALL;
use crate::token::Token;

/// Copies these bytes to the buffer's beginning and returns the status, if the buffer is long enough. Otherwise it
/// leaves the buffer as it is and returns `BUFFER_TOO_SMALL`. In `needed` it puts how many bytes there are.
pub fn fill(buffer: &mut [u8], needed: &mut usize, bytes: &[u8], status: u32) -> u32
    ensures count { needed.new ≡ length bytes.now }
    ensures filled { length bytes.now ≤ length buffer.old → (result ≡ status) × Begins bytes.now buffer.old buffer.new }
    ensures short { length buffer.old < length bytes.now → (result ≡ BUFFER_TOO_SMALL) × (buffer.new ≡ buffer.old) }
{
    *needed = bytes.len();
    if buffer.len() < bytes.len() {
        return BUFFER_TOO_SMALL;
    }
    buffer[..bytes.len()].copy_from_slice(bytes);
    status
}

/// Puts a token into the buffer after `others` tokens, if it has capacity for it.
pub(crate) fn put(buffer: &mut [Token], others: usize, token: Token)
    ensures { buffer.new ≡ slice_set buffer.old others token }
{
    if others < buffer.len() {
        buffer[others] = token;
    }
}

/// Writes bytes into the buffer from an index on, as far as they fit.
pub(crate) fn write_bytes(buffer: &mut [u8], at: usize, bytes: &[u8])
    ensures { buffer.new ≡ with_written buffer.old at bytes.now }
{
    if buffer.len() <= at {
        return;
    }
    let left = buffer.len() - at;
    if bytes.len() <= left {
        buffer[at..at + bytes.len()].copy_from_slice(bytes);
        return;
    }
    buffer[at..].copy_from_slice(&bytes[..left]);
}
