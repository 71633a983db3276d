//! The words of the command line.

ghost use Rattle.std.specs.Prelude.{◌≡◌, ◌∷◌, ℕ, None, Some, false, Bool, List, codes, map, option_map, IfOk, IfErr, MatchOption};
ghost use Rattle.clap.specs.Words.{Row, Text, app_of, first_of, found_of, rows_of, subcommand_of, subcommand_rows_of};
ghost use Rattle.dt_run_words.specs.Words.{
  AreFiles,
  AsksOneNode,
  HasFlags,
  HasWords,
  IsFlag,
  IsLine,
  IsNumber,
  LacksDma,
  LacksSpec,
  Names,
  NamesNone,
  Tells,
  WhyNoLine,
  command_of,
  dtool,
  first_word,
  takes_overlays,
};
ghost use Rattle.dt_run_words.specs.declared.words.LineFault.TheVariants.{Memory};

use crate::command_line::{Job, Line};
use crate::commands::tool;
use clap::error::ErrorKind;
use clap::{ArgMatches, Command};
use std::alloc::{AllocError, Global};
use std::convert::AsStr;
use thiserror::Error;

/// Why words ask for nothing. Its `Display` is the text for the user.
#[derive(Debug, Drop, Error)]
pub enum LineFault {
    /// Memory was refused.
    #[error("dtool: out of memory\n")]
    Memory,
    /// The words are no command, or ask for help or the version.
    #[error("{0}")]
    Words(clap::Error),
}

impl From<AllocError> for LineFault {
    ghost from_gives = { λ _ fault. fault ≡ Memory };

    fn from(_error: AllocError) -> LineFault {
        LineFault::Memory
    }
}

impl From<clap::Error> for LineFault {
    ghost from_gives = { Tells };

    fn from(error: clap::Error) -> LineFault {
        match error.kind() {
            ErrorKind::OutOfMemory => LineFault::Memory,
            _ => LineFault::Words(error),
        }
    }
}

/// What the words of a command line ask for. The first is the program's name.
///
/// # Errors
///
/// `Words` where they are no command that the tool has, or ask for help or the version; and `Memory`.
// Apart, so that what clap takes of the stack is free again before the job.
#[inline(never)]
pub fn line<'a, S: AsStr>(alloc: Global, words: &'a [S]) -> Result<Line<'a>, LineFault>
    ensures line { IfOk result (IsLine (map S.text words.entry.now)) }
    ensures refused { IfErr result (WhyNoLine (map S.text words.entry.now)) }
{
    let mut command = tool(alloc)?;
    asked(alloc, &mut command, words)
}

/// What the words ask of the tool's command.
fn asked<'a, S: AsStr>(
    alloc: Global,
    command: &mut Command<'a>,
    words: &'a [S],
) -> Result<Line<'a>, LineFault>
    requires { app_of command.old ≡ dtool }
    ensures line { IfOk result (IsLine (map S.text words.entry.now)) }
    ensures refused { IfErr result (WhyNoLine (map S.text words.entry.now)) }
{
    let matches = command.try_get_matches_from_mut(words)?;
    match line_in(alloc, &matches)? {
        Some(line) => Ok(line),
        None => Err(no_line(command)),
    }
}

/// That a command or a file is missing, in clap's words.
fn no_line(command: &mut Command<'_>) -> LineFault
    ensures { (words : List Text) → NamesNone (subcommand_of dtool words) → WhyNoLine words result }
{
    match command.error(
        ErrorKind::MissingSubcommand,
        "a command and a file are wanted",
    ) {
        Ok(error) => LineFault::Words(error),
        Err(_) => LineFault::Memory,
    }
}

/// What is asked for, where there are a command and its first file.
fn line_in<'a>(alloc: Global, matches: &ArgMatches<'a>) -> Result<Option<Line<'a>>, AllocError>
    ensures { IfOk result (λ line. MatchOption line (NamesNone (subcommand_rows_of matches.now)) (Names (subcommand_rows_of matches.now))) }
{
    let Some((command, found)) = matches.subcommand() else {
        return Ok(None);
    };
    let Some((job, hex)) = job_of(command, found) else {
        return Ok(None);
    };
    match files_of(alloc, job, found)? {
        Some(files) => Ok(Some(Line { job, hex, files })),
        None => Ok(None),
    }
}

/// The job of a command, and whether its blob is written as hexadecimal.
fn job_of<'a>(command: &str, found: &ArgMatches<'a>) -> Option<(Job<'a>, bool)>
    ensures { MatchOption result ((job : Job) → command.now ≡ command_of job → HasWords job (rows_of (found_of found.now)) → ⊥)
        (λ asked. (command.now ≡ command_of asked.0) × HasFlags asked.0 (rows_of (found_of found.now)) asked.1
        × HasWords asked.0 (rows_of (found_of found.now))) }
{
    match command {
        "dma" => without_hex(dma_of(found)),
        "spec" => without_hex(spec_of(found)),
        _ => plain_job_of(command, found),
    }
}

/// The same of a command that has files alone.
fn plain_job_of<'a>(command: &str, found: &ArgMatches<'a>) -> Option<(Job<'a>, bool)>
    ensures { MatchOption result ((job : Job) → command.now ≡ command_of job → AsksOneNode job)
        (λ asked. (command.now ≡ command_of asked.0) × HasFlags asked.0 (rows_of (found_of found.now)) asked.1
        × HasWords asked.0 (rows_of (found_of found.now))) }
{
    match command {
        "compile" => Some((compiling(found.get_flag("raw")), found.get_flag("hex"))),
        "apply" => Some((Job::Apply, found.get_flag("hex"))),
        "build" => Some((Job::Build, found.get_flag("hex"))),
        "print" => Some((Job::Print, false)),
        "check" => Some((Job::Check, false)),
        "regs" => Some((Job::Regs, false)),
        "irqs" => Some((Job::Irqs, false)),
        _ => None,
    }
}

/// A job that writes no blob.
fn without_hex<'a>(job: Option<Job<'a>>) -> Option<(Job<'a>, bool)>
    ensures { MatchOption job.entry (result ≡ None) (λ job. result ≡ Some (job, false)) }
{
    match job {
        Some(job) => Some((job, false)),
        None => None,
    }
}

/// What is asked by the words of `dma`, where all are there.
fn dma_of<'a>(found: &ArgMatches<'a>) -> Option<Job<'a>>
    ensures { MatchOption result (LacksDma (rows_of (found_of found.now))) (λ job. (command_of job ≡ codes "dma")
        × HasFlags job (rows_of (found_of found.now)) false × HasWords job (rows_of (found_of found.now))) }
{
    let Some(path) = found.get_str("PATH") else {
        return None;
    };
    let Some(address) = number_of(found, "ADDRESS") else {
        return None;
    };
    let Some(size) = number_of(found, "SIZE") else {
        return None;
    };
    Some(Job::Dma {
        path,
        address,
        size,
    })
}

/// What is asked by the words of `spec`, where all are there.
fn spec_of<'a>(found: &ArgMatches<'a>) -> Option<Job<'a>>
    ensures { MatchOption result (LacksSpec (rows_of (found_of found.now))) (λ job. (command_of job ≡ codes "spec")
        × HasFlags job (rows_of (found_of found.now)) false × HasWords job (rows_of (found_of found.now))) }
{
    let Some(path) = found.get_str("PATH") else {
        return None;
    };
    let Some(property) = found.get_str("PROP") else {
        return None;
    };
    let Some(kind) = found.get_str("KIND") else {
        return None;
    };
    let Some(index) = number_of(found, "INDEX") else {
        return None;
    };
    Some(Job::Spec {
        path,
        property,
        kind,
        index,
    })
}

/// The number that a word is.
fn number_of(found: &ArgMatches<'_>, id: &str) -> Option<u64>
    ensures { MatchOption result ((n : ℕ) → IsNumber id.now (rows_of (found_of found.now)) n → ⊥) (λ n. IsNumber id.now (rows_of (found_of found.now)) n) }
{
    found.get_one(id)
}

/// The files of a job, where there is the first.
fn files_of<'a>(
    alloc: Global,
    job: Job<'_>,
    found: &ArgMatches<'a>,
) -> Result<Option<Vec<&'a str>>, AllocError>
    ensures { IfOk result (λ files. MatchOption files (first_of (first_word job.entry) (rows_of (found_of found.now)) ≡ None)
        (λ files. AreFiles job.entry (rows_of (found_of found.now)) (map (λ file. file.now) files.items))) }
{
    if takes_overlays(job) {
        let overlays = found.get_strs("OVERLAY").unwrap_or(&[]);
        in_order(alloc, found.get_str("BASE"), overlays)
    } else {
        in_order(alloc, found.get_str("FILE"), &[])
    }
}

/// Whether a job takes overlays, beside a base.
fn takes_overlays(job: Job<'_>) -> bool
    ensures { result ≡ takes_overlays job.entry }
{
    matches!(job, Job::Apply | Job::Build)
}

/// The first file, where there is one, and the others behind it.
fn in_order<'a>(
    alloc: Global,
    first: Option<&'a str>,
    others: &[&'a str],
) -> Result<Option<Vec<&'a str>>, AllocError>
    ensures { IfOk result (λ files. MatchOption files (option_map (λ file. file.now) first.entry ≡ None) (λ files. (file : Text)
        × (option_map (λ file. file.now) first.entry ≡ Some file) × (map (λ file. file.now) files.items ≡ file ∷ map (λ file. file.now) others.now))) }
{
    let Some(first) = first else {
        return Ok(None);
    };
    let mut files = Vec::new(alloc);
    files.push(first)?;
    files.extend_from_slice(others)?;
    Ok(Some(files))
}

/// The job of a source: the flag `--raw` is there or not.
fn compiling(raw: bool) -> Job<'static>
    ensures { (rows : List Row) (hex : Bool) → IsFlag (codes "hex") rows hex → IsFlag (codes "raw") rows raw →
        (command_of result ≡ codes "compile") × HasFlags result rows hex × HasWords result rows }
{
    if raw { Job::CompileRaw } else { Job::Compile }
}
