//! The job that the arguments describe.
ghost use Rattle.std.specs.Prelude.{◌≡◌, ◌<◌, ◌↔◌, IfErr, IfOk, IsSome, IsTrue, Some, length, map, string_bytes};
ghost use Rattle.std.specs.Option.{option_map};
ghost use Rattle.lexdump_run.specs.Job.{command_of, edit_job, first_replacement, job_in, job_of, place_of, replacement, replacements_of, IsJobFault};

use crate::fault::Fault;
use rustc_lexer::{Edit, Edition};
use std::alloc::{AllocError, Global};
use std::str::FromStr;

/// The work of a run with its input.
#[derive(Drop)]
pub enum Job<'a> {
    /// List the tokens of the text in an edition.
    Plain {
        edition: Edition,
    },
    /// List the tokens of the text, which may start with a frontmatter, in the newest edition.
    Front,
    /// Print the length of the shebang line.
    Shebang,
    /// Apply the edits, then list the tokens of the text in an edition.
    Edit {
        edition: Edition,
        edits: Vec<Edit<'a>>,
    },
}

/// Reads the arguments after the program's name. It allocates only for edits, and only once all
/// arguments are known to be valid.
///
/// # Errors
///
/// Returns `Fault::Arguments` if the arguments describe no job, and `Fault::Memory` if an allocation for edits failed.
pub fn read_job<'a>(alloc: Global, words: &'a [String]) -> Result<Job<'a>, Fault>
    ensures job { IfOk result
        (λ job. job_of (map string_bytes words.now) ≡ Some (command_of job)) }
    ensures fault { IfErr result
        (λ fault. IsJobFault fault (job_of (map string_bytes words.now))) }
{
    match words {
        [command] if command.as_str() == "front" => Ok(Job::Front),
        [command] if command.as_str() == "shebang" => Ok(Job::Shebang),
        [option, year, rest @ ..] if option.as_str() == "--edition" => {
            let edition = Edition::from_str(year.as_str()).map_err(|_| Fault::Arguments)?;
            read_job_in(alloc, rest, edition)
        }
        _ => read_job_in(alloc, words, Edition::NEWEST),
    }
}

/// Reads the arguments of a job in the given edition.
fn read_job_in<'a>(alloc: Global, words: &'a [String], edition: Edition) -> Result<Job<'a>, Fault>
    ensures job { IfOk result
        (λ job. job_in edition (map string_bytes words.now) ≡ Some (command_of job)) }
    ensures fault { IfErr result
        (λ fault. IsJobFault fault (job_in edition (map string_bytes words.now))) }
{
    match words {
        [] => Ok(Job::Plain { edition }),
        [command, edits @ ..] if command.as_str() == "edit" => {
            read_edit_job(alloc, edits, edition)
        }
        _ => Err(Fault::Arguments),
    }
}

/// Reads the arguments after `edit`.
#[tactic(auto, using(crate::proofs::JobLemmas::no_edits, crate::proofs::JobLemmas::asks_edits, crate::proofs::JobLemmas::job_lemmas))]
fn read_edit_job<'a>(alloc: Global, words: &'a [String], edition: Edition) -> Result<Job<'a>, Fault>
    ensures job { IfOk result
        (λ job. edit_job edition (map string_bytes words.now) ≡ Some (command_of job)) }
    ensures fault { IfErr result
        (λ fault. IsJobFault fault (edit_job edition (map string_bytes words.now))) }
{
    if !are_edits(words) {
        return Err(Fault::Arguments);
    }
    Ok(Job::Edit {
        edition,
        edits: read_edits(alloc, words)?,
    })
}

/// Returns whether the arguments are one edit or more, of three arguments each.
#[tactic(auto, using(crate::proofs::JobLemmas::job_lemmas))]
fn are_edits(words: &[String]) -> bool
    ensures { IsTrue result
        ↔ ((0 < length words.now) × IsSome (replacements_of (map string_bytes words.now))) }
{
    let mut rest = words;
    while let Some((_, after)) = first_edit(rest) {
        rest = after;
    }
    rest.is_empty() && !words.is_empty()
}

/// Returns the edits of the arguments.
#[tactic(auto, using(crate::proofs::JobLemmas::read_more, crate::proofs::JobLemmas::job_lemmas))]
fn read_edits<'a>(alloc: Global, words: &'a [String]) -> Result<Vec<Edit<'a>>, AllocError>
    requires { IsSome (replacements_of (map string_bytes words.now)) }
    ensures { IfOk result
        (λ edits. replacements_of (map string_bytes words.now)
        ≡ Some (map replacement edits.items)) }
{
    let mut edits = Vec::new(alloc);
    let mut rest = words;
    while let Some((edit, after)) = first_edit(rest) {
        edits.push(edit)?;
        rest = after;
    }
    Ok(edits)
}

/// Returns the edit of the first three arguments, and the arguments after them.
fn first_edit<'a>(words: &'a [String]) -> Option<(Edit<'a>, &'a [String])>
    ensures { option_map (λ p. (replacement p.0, map string_bytes p.1.now)) result
        ≡ first_replacement (map string_bytes words.now) }
{
    let [start, stop, insert, rest @ ..] = words else {
        return None;
    };
    let edit = Edit {
        start: read_place(start.as_str())?,
        stop: read_place(stop.as_str())?,
        insert: insert.as_str(),
    };
    Some((edit, rest))
}

/// The maximum number of digits of an offset.
const MOST_DIGITS: usize = 10;

/// Reads an offset.
#[tactic(auto, using(crate::proofs::JobLemmas::job_lemmas), unfolding(crate::specs::Job::place_of))]
fn read_place(word: &str) -> Option<usize>
    ensures { result ≡ place_of word.now }
{
    // `parse` would accept a plus sign, which is not a digit.
    if word.len() > MOST_DIGITS || word.starts_with('+') {
        return None;
    }
    let place: u32 = word.parse().ok()?;
    Some(place as usize)
}
