//! The whole work of a program that reports on the bytes that it reads, over any reader and writer.
ghost use Rattle.std.specs.Prelude.{◌≡◌, ℕ, ◌↔◌, ◌⊎◌, Err, true, false, List, take, IfOk, string_bytes};
ghost use Rattle.std.specs.Io.KnownBytes.{Appends, Consumes, IsAtEnd, Keeps};
ghost use Rattle.streams.specs.Reports.{HasOneReport};
ghost use Rattle.streams.specs.Watched.{inner_of, has_failed};

use crate::watched::Watched;
use crate::whole::{Stop, read_all, write_all};
use std::alloc::{AllocError, Global};
use std::io::{Read, Write};

/// How the report on some bytes ends. Each program has such a type, which says what its reports are.
pub trait ReportEnd: Sized + Drop {
    /// The report on these bytes ends so, and is this text.
    ghost reports: { List ℕ → Self → List ℕ → Type 0 };

    /// Returns how the report on these bytes ends, and its text.
    ///
    /// Returns `AllocError` if memory runs out.
    fn report(alloc: Global, bytes: &[u8]) -> Result<(Self, String), AllocError>
        ensures { IfOk result (λ answer. reports bytes.now answer.0 (string_bytes answer.1)) };

    /// Bytes have one report.
    fn one_report()
        ensures { HasOneReport reports };
}

/// Reads all of the reader, writes the report on its bytes, and returns how that ends.
///
/// The report is a function of the bytes. It is built whole before any of it is written. Fails with `Stop::Device` if a
/// read or a write fails, and with `Stop::Memory` if memory runs out, as it does for a reader that neither ends nor fails.
/// Condition: neither the reader nor the writer has failed yet.
pub fn run<E: ReportEnd, R: Read, W: Write>(
    alloc: Global,
    reader: &mut Watched<R>,
    writer: &mut Watched<W>,
) -> Result<E, Stop>
    requires sound_reader { has_failed reader.old ≡ false }
    requires sound_writer { has_failed writer.old ≡ false }
    ensures reported { IfOk result (λ end. (bytes : List ℕ)
        × Consumes (R.remaining (inner_of reader.old)) (R.remaining (inner_of reader.new)) bytes
        × IsAtEnd (R.remaining (inner_of reader.new))
        × ((text : List ℕ) × E.reports bytes end text
        × Appends (W.contents (inner_of writer.old)) (W.contents (inner_of writer.new)) text)) }

    // Bytes have one report, so this one is theirs.
    ensures one_report { HasOneReport E.reports }
    ensures device { (result ≡ Err Stop.Device)
        ↔ ((has_failed reader.new ≡ true) ⊎ (has_failed writer.new ≡ true)) }

    // After a failed write a prefix of the report has been written.
    ensures failed_write { has_failed writer.new ≡ true → (bytes : List ℕ)
        × Consumes (R.remaining (inner_of reader.old)) (R.remaining (inner_of reader.new)) bytes
        × IsAtEnd (R.remaining (inner_of reader.new))
        × ((end : E) × (text : List ℕ) × E.reports bytes end text
        × ((n : ℕ) × Appends (W.contents (inner_of writer.old)) (W.contents (inner_of writer.new)) (take n text))) }

    // After a failed read, and if memory ran out, nothing has.
    ensures failed_read { has_failed reader.new ≡ true
        → Keeps (W.contents (inner_of writer.old)) (W.contents (inner_of writer.new)) }
    ensures memory { result ≡ Err Stop.Memory
        → Keeps (W.contents (inner_of writer.old)) (W.contents (inner_of writer.new)) }
{
    E::one_report();
    let source = read_all(alloc, reader)?;
    let Ok((end, text)) = E::report(alloc, source.as_slice()) else {
        return Err(Stop::Memory);
    };
    if write_all(writer, text.as_bytes()) {
        Ok(end)
    } else {
        Err(Stop::Device)
    }
}
