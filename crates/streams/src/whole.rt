//! Reading all bytes of a reader, and writing all of a text to a writer.
ghost use Rattle.std.specs.Prelude.{◌≡◌, ℕ, ◌↔◌, true, false, not, Err, IfOk, IsTrue, take};
ghost use Rattle.std.specs.Io.KnownBytes.{Appends, Consumes, IsAtEnd};
ghost use Rattle.streams.specs.Watched.{inner_of, has_failed};

use crate::watched::Watched;
use std::alloc::Global;
use std::io::{Read, Write};
use thiserror::Error;

/// Why a reader was not read to its end, or a program has no whole report.
#[derive(Clone, Copy, Debug, PartialEq, Eq, Error)]
pub enum Stop {
    /// A read or a write failed.
    #[error("input or output failed")]
    Device,
    /// Memory ran out.
    #[error("out of memory")]
    Memory,
}

const CHUNK: usize = 4096;

/// Reads a reader's bytes, to its end.
///
/// Fails with `Stop::Device` if a read fails, and with `Stop::Memory` if memory runs out, as it does for a reader that
/// neither ends nor fails. Condition: the reader has not failed yet.
pub fn read_all<R: Read>(alloc: Global, reader: &mut Watched<R>) -> Result<Vec<u8>, Stop>
    requires { has_failed reader.old ≡ false }
    ensures all { IfOk result (λ source.
        Consumes (R.remaining (inner_of reader.old)) (R.remaining (inner_of reader.new)) source.items
        × IsAtEnd (R.remaining (inner_of reader.new))) }
    ensures device { (result ≡ Err Stop.Device) ↔ (has_failed reader.new ≡ true) }
{
    let mut source = Vec::new(alloc);
    let mut chunk = [0u8; CHUNK];
    'reads: loop {
        match reader.read(&mut chunk) {
            Ok(0) => return Ok(source),
            Ok(count) => {
                if source.extend_from_slice(&chunk[..count]).is_err() {
                    return Err(Stop::Memory);
                }
            }
            Err(_) => return Err(Stop::Device),
        }
    }
}

/// Writes the text, and returns whether all of it was written. Otherwise a write has failed, and a prefix of the text
/// has been written.
///
/// Condition: the writer has not failed yet.
pub fn write_all<W: Write>(writer: &mut Watched<W>, text: &[u8]) -> bool
    requires { has_failed writer.old ≡ false }
    ensures all { IsTrue result
        → Appends (W.contents (inner_of writer.old)) (W.contents (inner_of writer.new)) text.now }
    ensures beginning { (n : ℕ)
        × Appends (W.contents (inner_of writer.old)) (W.contents (inner_of writer.new)) (take n text.now) }
    ensures failed { has_failed writer.new ≡ not result }
{
    let mut written = 0;
    'writes: while written < text.len() {
        match writer.write(&text[written..]) {
            Ok(0) | Err(_) => return false,
            Ok(count) => written += count,
        }
    }
    true
}
