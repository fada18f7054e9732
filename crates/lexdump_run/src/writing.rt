//! Writing bytes to the end.
ghost use Rattle.std.specs.Prelude.{◌≡◌, ◌||◌, ◌++◌, true, is_err, IfErr, IfOk, OnErr, OnOk};
ghost use Rattle.std.specs.Io.KnownBytes.{Appends};
ghost use Rattle.lexdump_run.specs.Known.{AppendsFront};

use crate::fault::Fault;
use crate::watched::Watched;
use std::io::Write;

/// Writes all of the bytes, and flushes.
///
/// # Errors
///
/// Returns `Fault::Write` if a write or the flush failed. A prefix of the bytes has then been written, or all of them
/// if only the flush failed.
pub fn write_all<W: Write>(output: &mut Watched<W>, bytes: &[u8]) -> Result<(), Fault>
    ensures failed { output.new.failed ≡ (output.old.failed || is_err result) }
    ensures only { IfErr result (λ fault. fault ≡ Fault.Write) }
    ensures flushed { IfOk result (λ _. output.new.flushed ≡ true) }
    ensures ok { OnOk result
        (Appends (W.contents output.old.inner) (W.contents output.new.inner) bytes.now) }
    ensures err { OnErr result
        (AppendsFront (W.contents output.old.inner) (W.contents output.new.inner) bytes.now) }
{
    write_bytes(output, bytes)?;
    output.flush().map_err(|_| Fault::Write)
}

/// Writes all of the bytes.
///
/// # Errors
///
/// Returns `Fault::Write` if a write failed. A prefix of the bytes has then been written.
#[tactic(auto, using(crate::proofs::KnownLemmas::went_more, crate::proofs::KnownLemmas::cut_past))]
pub fn write_bytes<W: Write>(output: &mut Watched<W>, bytes: &[u8]) -> Result<(), Fault>
    ensures failed { output.new.failed ≡ (output.old.failed || is_err result) }
    ensures only { IfErr result (λ fault. fault ≡ Fault.Write) }
    ensures ok { OnOk result
        (Appends (W.contents output.old.inner) (W.contents output.new.inner) bytes.now) }
    ensures err { OnErr result
        (AppendsFront (W.contents output.old.inner) (W.contents output.new.inner) bytes.now) }
{
    let mut rest = bytes;
    while !rest.is_empty() {
        let count = match output.write(rest) {
            Ok(count) => count,
            Err(_) => return Err(Fault::Write),
        };
        if count == 0 {
            return Err(Fault::Write);
        }
        rest = &rest[count..];
    }
    Ok(())
}

/// Writes three texts, one after another.
///
/// # Errors
///
/// Returns `Fault::Write` if a write failed. A prefix of the texts has then been written.
pub fn write_texts<W: Write>(
    output: &mut Watched<W>,
    one: &str,
    two: &str,
    three: &str,
) -> Result<(), Fault>
    ensures failed { output.new.failed ≡ (output.old.failed || is_err result) }
    ensures only { IfErr result (λ fault. fault ≡ Fault.Write) }
    ensures ok { OnOk result (Appends (W.contents output.old.inner) (W.contents output.new.inner)
        (one.now ++ (two.now ++ three.now))) }
    ensures err { OnErr result (AppendsFront (W.contents output.old.inner)
        (W.contents output.new.inner) (one.now ++ (two.now ++ three.now))) }
{
    write_bytes(output, one.as_bytes())?;
    write_bytes(output, two.as_bytes())?;
    write_bytes(output, three.as_bytes())
}
