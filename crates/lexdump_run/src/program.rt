//! The whole program, for any reader and writers.
ghost use Rattle.std.specs.Prelude.{◌≡◌, false, Result};
ghost use Rattle.lexdump_run.specs.Fault.{IsReported};
ghost use Rattle.lexdump_run.specs.Words.{words_of};
ghost use Rattle.lexdump_run.specs.declared.fault.Fault.{Fault as TheFault};
ghost use Rattle.lexdump_run.specs.Program.{IsOutcome, Leaves};

use crate::fault::{Fault, report};
use crate::job::read_job;
use crate::run_job::run;
use crate::watched::Watched;
use crate::words::read_words;
use std::alloc::Global;
use std::env::Args;
use std::io::{Read, Write};

/// Runs the program: reads arguments and input, writes the output, reports an error, and returns the exit status. The
/// first argument is the program's name. `args` is `None` if the arguments could not be read.
pub fn program<R: Read, W: Write, E: Write>(
    alloc: Global,
    args: Option<Args>,
    input: &mut Watched<R>,
    output: &mut Watched<W>,
    errors: &mut Watched<E>,
) -> u8
    requires reads { input.old.failed ≡ false }
    requires writes { output.old.failed ≡ false }
    ensures ended { (outcome : Result (Unit {0}) TheFault)
        × IsOutcome (words_of args) (R.remaining input.old.inner) (W.contents output.old.inner)
        (W.contents output.new.inner) outcome
        × Leaves input.new output.new (W.contents output.old.inner)
        (W.contents output.new.inner) outcome
        × IsReported outcome result (errors.new.failed ≡ false) errors.new.flushed
        (E.contents errors.old.inner) (E.contents errors.new.inner) }
{
    let outcome = dump(alloc, args, input, output);
    report(&outcome, errors)
}

/// Reads the arguments and does the job that they describe.
fn dump<R: Read, W: Write>(
    alloc: Global,
    args: Option<Args>,
    input: &mut Watched<R>,
    output: &mut Watched<W>,
) -> Result<(), Fault>
    requires reads { input.old.failed ≡ false }
    requires writes { output.old.failed ≡ false }
    ensures outcome { IsOutcome (words_of args) (R.remaining input.old.inner)
        (W.contents output.old.inner) (W.contents output.new.inner) result }
    ensures leaves { Leaves input.new output.new (W.contents output.old.inner)
        (W.contents output.new.inner) result }
{
    let words = read_words(alloc, args)?;
    let job = read_job(alloc, words.as_slice())?;
    run(alloc, &job, input, output)
}
