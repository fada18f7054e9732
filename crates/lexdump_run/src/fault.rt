//! The reasons why the program stops, with their messages and exit statuses.
ghost use Rattle.std.specs.Prelude.{◌≡◌, ◌++◌, ◌||◌, ◌∷◌, [], false, is_err, true, IfOk, OnErr, OnOk};
ghost use Rattle.std.specs.Io.KnownBytes.{Appends};
ghost use Rattle.lexdump_run.specs.Fault.{fault_text, message, number_text, status_of, IsReported};
ghost use Rattle.lexdump_run.specs.Known.{AppendsFront};
ghost use Rattle.lexdump_run.specs.declared.fault.Fault.TheVariants.{Memory};

use crate::watched::Watched;
use crate::writing::{write_bytes, write_texts};
use itoa::Buffer;
use std::alloc::{AllocError, AllocFailed};
use std::io::Write;

/// The reason why the program stops.
#[derive(Clone, Copy, Debug, PartialEq, Eq)]
pub enum Fault {
    /// The arguments are not valid.
    Arguments,
    /// The input is not UTF-8.
    NotUtf8,
    /// The input has more than `u32::MAX` bytes.
    TooLong,
    /// The range of the edit with index `at` is out of bounds or not on char boundaries.
    EditRange { at: usize },
    /// The edit with index `at` would make the text longer than `u32::MAX` bytes.
    EditTooLong { at: usize },
    /// An allocation failed.
    Memory,
    /// The reader failed.
    Read,
    /// The writer failed, or wrote 0 of the bytes that it was given.
    Write,
}

/// Returns the exit status of the program if it stops for this reason.
pub fn status(fault: &Fault) -> u8
    ensures { result ≡ status_of fault.now }
{
    match fault {
        Fault::Arguments => 2,
        Fault::NotUtf8 => 3,
        Fault::TooLong => 4,
        Fault::EditRange { at: _ } | Fault::EditTooLong { at: _ } => 5,
        Fault::Memory => 6,
        Fault::Read | Fault::Write => 7,
    }
}

/// Prints the message of a run that failed on the error stream, and flushes. Returns the exit status.
///
/// If the error stream fails, a prefix of the message has been written, and the status is the same.
pub fn report<E: Write>(outcome: &Result<(), Fault>, errors: &mut Watched<E>) -> u8
    ensures { IsReported outcome.now result (errors.new.failed ≡ false) errors.new.flushed
        (E.contents errors.old.inner) (E.contents errors.new.inner) }
{
    let Err(fault) = outcome else {
        return 0;
    };
    // A failure of the error stream itself cannot be reported.
    let _ = print_message(fault, errors);
    status(fault)
}

/// Prints the message of a fault, and flushes.
#[tactic(auto, using(crate::proofs::KnownLemmas::front_first, crate::proofs::KnownLemmas::front_more))]
fn print_message<E: Write>(fault: &Fault, errors: &mut Watched<E>) -> Result<(), Fault>
    ensures failed { errors.new.failed ≡ (errors.old.failed || is_err result) }
    ensures flushed { IfOk result (λ _. errors.new.flushed ≡ true) }
    ensures ok { OnOk result (Appends (E.contents errors.old.inner) (E.contents errors.new.inner)
        (message fault.now)) }
    ensures err { OnErr result (AppendsFront (E.contents errors.old.inner)
        (E.contents errors.new.inner) (message fault.now)) }
{
    write_bytes(errors, "lexdump: ".as_bytes())?;
    let mut buffer = Buffer::new();
    let (before, number, after) = text_of(fault);
    write_texts(errors, before, digits(&mut buffer, number), after)?;
    errors.flush().map_err(|_| Fault::Write)
}

/// Returns the digits of the number, if there is one.
fn digits(buffer: &mut Buffer, number: Option<usize>) -> &str
    ensures { result.now ≡ number_text number }
{
    match number {
        Some(number) => buffer.format(number),
        None => "",
    }
}

/// Returns the text of a fault and its newline in three parts: the text before the index of the edit, that index,
/// and the rest.
#[tactic(auto, unfolding(crate::specs::Fault::fault_text))]
fn text_of(fault: &Fault) -> (&'static str, Option<usize>, &'static str)
    ensures { result.0.now ++ (number_text result.1 ++ result.2.now)
        ≡ fault_text fault.now ++ 10 ∷ [] }
{
    match fault {
        Fault::Arguments => ("bad arguments", None, "\n"),
        Fault::NotUtf8 => ("input is not UTF-8", None, "\n"),
        Fault::TooLong => ("input too long", None, "\n"),
        Fault::EditRange { at } => ("edit ", Some(*at), ": bad range\n"),
        Fault::EditTooLong { at } => ("edit ", Some(*at), ": text too long\n"),
        Fault::Memory => ("no memory", None, "\n"),
        Fault::Read => ("read failed", None, "\n"),
        Fault::Write => ("write failed", None, "\n"),
    }
}

impl From<AllocError> for Fault {
    ghost from_gives = { λ _ fault. fault ≡ Memory };

    fn from(_error: AllocError) -> Fault {
        Fault::Memory
    }
}

impl<T: Drop> From<AllocFailed<T>> for Fault {
    ghost from_gives = { λ _ fault. fault ≡ Memory };

    fn from(_error: AllocFailed<T>) -> Fault {
        Fault::Memory
    }
}
