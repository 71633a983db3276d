//! Where the inputs come from.

ghost use Rattle.std.specs.Prelude.{⊤, ◌≡◌, ◌<◌, ◌≤◌, ◌++◌, ◌∷◌, [], ℕ, List, None, true, IfOk, IfErr, MatchResult, OnOk, Result, Ok, Err, length, map};
ghost use Rattle.dt_model.specs.Limits.{most_bytes};
ghost use Rattle.dt_names.specs.declared.fault.FaultKind.{FaultKind};
ghost use Rattle.dt_run_streams.specs.Files.{AreLoaded, IsAgain, IsLoaded, IsOfLoading, WhyNotLoaded, WhyNotNext};

use crate::input::read_all;
use dt_names::{Fault, FaultKind, In};
use std::alloc::{AllocError, Global};
use std::fs;
use std::rt::Files as FileSystem;

/// Files by their names. The name `stdin` is standard input.
pub trait Files {
    // What asking for a name may answer, and leave behind.
    ghost loads: { Self → List ℕ → Result (List ℕ) FaultKind → Self → Type 0 };

    /// The bytes of the file of a name.
    ///
    /// # Errors
    ///
    /// `ReadFault` where the file can't be opened or read, `Limit` past 16,777,216 bytes, and `NoMemory`. None has a place.
    fn load(&mut self, name: &str) -> Result<Vec<u8>, Fault>
        ensures answered { MatchResult result
            (λ bytes. loads self.old name.now (Ok bytes.items) self.new)
            (λ fault. loads self.old name.now (Err fault.kind) self.new) }
        ensures size { IfOk result (λ bytes. length bytes.items ≤ most_bytes) }
        ensures refused { IfErr result (λ fault. IsOfLoading fault.kind × (fault.at ≡ None)) };
}

/// The files of the system.
#[derive(Drop)]
pub struct SystemFiles<'a, R> {
    rt: &'a R,
}

impl<'a, R> SystemFiles<'a, R> {
    pub fn new(rt: &'a R) -> SystemFiles<'a, R> {
        SystemFiles { rt }
    }
}

impl<'a, R: FileSystem + Input + AllocGlobal> Files for SystemFiles<'a, R> {
    ghost loads = { λ _ _ _ _. ⊤ };

    fn load(&mut self, name: &str) -> Result<Vec<u8>, Fault> {
        load(self.rt, name)
    }
}

/// The bytes of the files of some names, which are asked for one after another, each once, and nothing else is. Standard input is read once:
/// for a second name `stdin` it is empty, and isn't asked for.
///
/// # Errors
///
/// The number of the first name whose file isn't loaded, counted from 0, with its fault. None behind it is asked for.
pub fn load_all<F: Files>(
    alloc: Global,
    files: &mut F,
    names: &[&str],
) -> Result<Vec<Vec<u8>>, (usize, Fault)>
    ensures texts { IfOk result (λ texts. AreLoaded F.loads (map (λ name. name.now) names.now) files.old (map (λ text. text.items) texts.items) files.new) }
    ensures refused { IfErr result (λ e. WhyNotLoaded F.loads (map (λ name. name.now) names.now) e.0 files.old e.1.kind files.new × (e.1.at ≡ None)) }
{
    let mut texts = Vec::new(alloc);
    for k in 0..names.len() {
        if let Err(fault) = load_next(alloc, files, names, k, &mut texts) {
            return Err((k, fault));
        }
    }
    Ok(texts)
}

/// Loads the file of the name of this number, and puts it behind those before it.
fn load_next<F: Files>(
    alloc: Global,
    files: &mut F,
    names: &[&str],
    k: usize,
    texts: &mut Vec<Vec<u8>>,
) -> Result<(), Fault>
    requires { k < length names.now }
    ensures loaded { OnOk result ((text : List ℕ) × (map (λ text. text.items) texts.new.items ≡ map (λ text. text.items) texts.old.items ++ text ∷ [])
        × IsLoaded F.loads (map (λ name. name.now) names.now) k files.old text files.new) }
    ensures refused { IfErr result (λ fault. WhyNotNext F.loads (map (λ name. name.now) names.now) k files.old fault.kind files.new × (fault.at ≡ None)) }
{
    let text = load_one(alloc, files, names, k)?;
    texts.push(text)?;
    Ok(())
}

/// The bytes of the file of the name of this number.
fn load_one<F: Files>(
    alloc: Global,
    files: &mut F,
    names: &[&str],
    k: usize,
) -> Result<Vec<u8>, Fault>
    requires { k < length names.now }
    ensures loaded { IfOk result (λ text. IsLoaded F.loads (map (λ name. name.now) names.now) k files.old text.items files.new) }
    ensures refused { IfErr result (λ fault. WhyNotNext F.loads (map (λ name. name.now) names.now) k files.old fault.kind files.new × (fault.at ≡ None)) }
{
    if is_again(names, k) {
        return Ok(Vec::new(alloc));
    }
    files.load(names[k])
}

/// Whether the name of this number is `stdin`, and one before it.
fn is_again(names: &[&str], k: usize) -> bool
    requires { k < length names.now }
    ensures again { IsAgain (map (λ name. name.now) names.now) k → result ≡ true }
    ensures only { result ≡ true → IsAgain (map (λ name. name.now) names.now) k }
{
    names[k] == "stdin" && names[..k].contains(&"stdin")
}

/// The bytes of the file of a name, or of standard input for the name `stdin`. Its buffers are on the stack while it reads, and not longer.
///
/// # Errors
///
/// `ReadFault` where the file can't be opened or read, `Limit` past 16,777,216 bytes, and `NoMemory`.
#[inline(never)]
fn load<R: FileSystem + Input + AllocGlobal>(rt: &R, name: &str) -> Result<Vec<u8>, Fault>
    ensures bytes { IfOk result (λ bytes. length bytes.items ≤ most_bytes) }
    ensures refused { IfErr result (λ fault. IsOfLoading fault.kind × (fault.at ≡ None)) }
{
    if name == "stdin" {
        return read_all(rt.alloc(), &mut In::new(rt.reader()));
    }
    match fs::open(rt, name) {
        Ok(file) => read_all(rt.alloc(), &mut In::new(file)),
        Err(_) => Err(Fault::of(FaultKind::ReadFault)),
    }
}
