//! A whole run, from a reader to a writer.
ghost use Rattle.std.specs.Prelude.{◌≡◌, false, IfSome};
ghost use Rattle.lexdump_run.specs.Program.{Leaves};
ghost use Rattle.rustc_lexer.specs.Classes.{Fits};
ghost use Rattle.lexdump_run.specs.Outcome.{Ends};
ghost use Rattle.lexdump_run.specs.Pushed.{Lists};

use crate::fault::Fault;
use crate::job::Job;
use crate::listing::{edited, list_pieces, list_tokens, push_shebang};
use crate::output::BlockWriter;
use crate::reading::read_text;
use crate::watched::Watched;
use rustc_lexer::{Edition, FrontmatterAllowed};
use std::alloc::Global;
use std::io::{Read, Write};

/// Reads all of the input, then prints the output of the job.
///
/// The lines are written in blocks. After `Ok`, the last call of the output was a flush.
///
/// # Errors
///
/// After every fault except `Fault::Write`, nothing was written, since all memory is allocated before the first byte is
/// written.
///
/// - `Fault::Read`: a read failed.
/// - `Fault::TooLong`: the input has more than `u32::MAX` bytes.
/// - `Fault::NotUtf8`: it is not UTF-8.
/// - `Fault::EditRange`, `Fault::EditTooLong`: an edit of the job was rejected for the text that the edits before it
///   leave.
/// - `Fault::Memory`: an allocation failed.
/// - `Fault::Write`: a write or the flush failed. A prefix of the output was written.
#[tactic(auto, using(crate::proofs::OutcomeLemmas::ends_unread))]
pub fn run<R: Read, W: Write>(
    alloc: Global,
    job: &Job<'_>,
    input: &mut Watched<R>,
    output: &mut Watched<W>,
) -> Result<(), Fault>
    requires reads { input.old.failed ≡ false }
    requires writes { output.old.failed ≡ false }
    ensures ends { IfSome (R.remaining input.old.inner) (λ bytes.
        Ends job.now bytes (W.contents output.old.inner) (W.contents output.new.inner) result) }
    ensures leaves { Leaves input.new output.new (W.contents output.old.inner)
        (W.contents output.new.inner) result }
{
    let text = read_text(alloc, input)?;
    let mut lines = BlockWriter::new(output);
    print(alloc, job, text.as_str(), &mut lines)?;
    lines.finish()
}

/// Prints the output of the job.
fn print<W: Write>(
    alloc: Global,
    job: &Job<'_>,
    text: &str,
    lines: &mut BlockWriter<'_, W>,
) -> Result<(), Fault>
    requires fits { Fits text.now }
    ensures lists { Lists W.contents job.now text.now lines.old lines.new result }
{
    match job {
        Job::Plain { edition } => { list_tokens(lines, text, FrontmatterAllowed::No, *edition) }
        Job::Front => {
            let newest = Edition::NEWEST;
            list_tokens(lines, text, FrontmatterAllowed::Yes, newest)
        }
        Job::Shebang => push_shebang(lines, text),
        Job::Edit { edition, edits } => {
            let lexed = edited(alloc, text, *edition, edits.as_slice())?;
            list_pieces(lines, &lexed)
        }
    }
}
