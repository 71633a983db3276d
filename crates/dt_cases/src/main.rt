//! `dt_cases FOLDER` tries the cases of a folder's tables, the files `*.cases`, and prints how many hold. docs/CASES.md has the
//! format, and the calls that a case can name.
//!
//! It writes a line for each table, in the order of their names, and reports each case that fails on standard error, with
//! its file and line. The exit status is 0 where each case holds, 1 where one doesn't, and 2 where the tables can't be read.
#![tactic(auto)]

mod blobs;
mod calls;
mod case;
mod chains;
mod damage;
mod edited;
mod edits;
mod expressions;
mod grammar;
mod input;
mod marks;
mod names;
mod numbers;
mod outcome;
mod printing;
mod reading;
mod resolving;
mod still;
mod still_edits;
mod still_nodes;
mod still_texts;
mod table;
mod tokens;
mod trees;

use crate::table::{Tally, try_table};
use std::alloc::{AllocError, Global};
use std::io::{Error, ErrorKind, Result as IoResult};
use std::process::ExitCode;
use std::rt::{Env, Files};
use std::{env, fs};

const ENDING: &str = ".cases";

/// The folder that the words of the command line name.
fn folder_of<R: Env + AllocGlobal>(rt: &R) -> IoResult<String> {
    let mut words = env::args(rt)?;
    let _program = words.next();
    words.next().ok_or(Error::from(ErrorKind::InvalidInput))
}

/// The names of a folder's tables, sorted.
fn tables_of<R: Files + AllocGlobal + Clone + Drop>(rt: &R, folder: &str) -> IoResult<Vec<String>> {
    let mut names = Vec::new(rt.alloc());
    push_names(rt, folder, &mut names)?;
    names.sort()?;
    Ok(names)
}

fn push_names<R: Files + AllocGlobal + Clone + Drop>(
    rt: &R,
    folder: &str,
    names: &mut Vec<String>,
) -> IoResult<()> {
    for entry in fs::read_dir(rt, folder)? {
        push_name(rt.alloc(), names, entry?.file_name())?;
    }
    Ok(())
}

/// Appends the name of a file if it is a table's.
fn push_name(alloc: Global, names: &mut Vec<String>, name: &str) -> Result<(), AllocError> {
    if name.ends_with(ENDING) {
        names.push(String::from_str(alloc, name)?)?;
    }
    Ok(())
}

/// Tries the cases of one table, and prints how many hold.
fn run_table<R: Files + Print + Eprint + AllocGlobal>(
    rt: &R,
    folder: &str,
    name: &str,
) -> IoResult<bool> {
    let path = format!(in rt.alloc(); "{folder}/{name}")?;
    let text = fs::read_to_string(rt, path.as_str())?;
    let tally = try_table(rt, name, text.as_str())?;
    tell(rt, name, tally)
}

/// Tells how many cases of a table hold; whether all do.
fn tell<R: Print>(rt: &R, name: &str, tally: Tally) -> IoResult<bool> {
    let Tally { all, held } = tally;
    if held == all {
        println!(rt; "{name}: {held} cases hold")?;
    } else {
        println!(rt; "{name}: {held} of {all} cases hold")?;
    }
    Ok(held == all)
}

/// Tries the cases of all tables; whether each holds.
fn run<R: Files + Env + Print + Eprint + AllocGlobal + Clone + Drop>(rt: &R) -> IoResult<bool> {
    let folder = folder_of(rt)?;
    run_folder(rt, folder.as_str())
}

fn run_folder<R: Files + Print + Eprint + AllocGlobal + Clone + Drop>(
    rt: &R,
    folder: &str,
) -> IoResult<bool> {
    let names = tables_of(rt, folder)?;
    run_tables(rt, folder, &names)
}

fn run_tables<R: Files + Print + Eprint + AllocGlobal>(
    rt: &R,
    folder: &str,
    names: &[String],
) -> IoResult<bool> {
    let mut all_hold = true;
    for name in names {
        if !run_table(rt, folder, name.as_str())? {
            all_hold = false;
        }
    }
    Ok(all_hold)
}

fn main(rt: HostRuntime) -> ExitCode {
    match run(&rt) {
        Ok(true) => ExitCode::SUCCESS,
        Ok(false) => ExitCode::from(1),
        Err(error) => {
            let _ = eprintln!(rt; "dt_cases: {error}");
            ExitCode::from(2)
        }
    }
}
