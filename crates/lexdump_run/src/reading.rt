//! Reading an input to its end.
ghost use Rattle.std.specs.Prelude.{◌≡◌, ◌↔◌, ◌^◌, ◌<◌, false, IfErr, IfOk, IfSome, IsErrOf, IsTrue, length, string_bytes};
ghost use Rattle.lexdump_run.specs.Reading.{EndsReading, IsInputFault};

use crate::fault::Fault;
use crate::watched::Watched;
use std::alloc::Global;
use std::io::Read;

/// The size of the buffer of each read, in bytes.
const PIECE: usize = 65536;

/// Reads all of the input into a string of at most `u32::MAX` bytes.
///
/// # Errors
///
/// Returns `Fault::Read` if a read failed, `Fault::TooLong` if there are more bytes, `Fault::NotUtf8` if they are not
/// UTF-8, and `Fault::Memory` if an allocation failed. The bytes that were read are then lost.
#[tactic(auto, using(std::proofs::lemmas::Grind::common_steps))]
pub fn read_text<R: Read>(alloc: Global, input: &mut Watched<R>) -> Result<String, Fault>
    requires reads { input.old.failed ≡ false }
    ensures read { IsErrOf result Fault.Read ↔ IsTrue input.new.failed }
    ensures bytes { IfOk result (λ text.
        IfSome (R.remaining input.old.inner) (λ bytes. string_bytes text ≡ bytes)) }
    ensures fits { IfOk result (λ text. length (string_bytes text) < 2 ^ 32) }
    ensures fault { IfErr result (IsInputFault (R.remaining input.old.inner)) }
{
    let bytes = read_all(alloc, input)?;
    String::from_utf8(bytes).map_err(|_| Fault::NotUtf8)
}

/// Reads all bytes up to the end of the input, at most `u32::MAX` of them.
///
/// # Errors
///
/// Returns `Fault::Read` if a read failed, `Fault::TooLong` if there are more bytes, and `Fault::Memory` if an
/// allocation failed. The bytes that were read are then lost.
fn read_all<R: Read>(alloc: Global, input: &mut Watched<R>) -> Result<Vec<u8>, Fault>
    requires reads { input.old.failed ≡ false }
    ensures failed { IsErrOf result Fault.Read ↔ IsTrue input.new.failed }
    ensures fits { IfOk result (λ bytes. length bytes.items < 2 ^ 32) }
    ensures ends { EndsReading (R.remaining input.old.inner) result }
{
    let mut bytes = Vec::new(alloc);
    let mut piece = [0u8; PIECE];
    loop {
        let Ok(count) = input.read(&mut piece) else {
            return Err(Fault::Read);
        };
        if count == 0 {
            return Ok(bytes);
        }
        if count > u32::MAX as usize - bytes.len() {
            return Err(Fault::TooLong);
        }
        if bytes.extend_from_slice(&piece[..count]).is_err() {
            return Err(Fault::Memory);
        }
    }
}
