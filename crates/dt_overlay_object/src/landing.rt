//! Where an object lands.

ghost use Rattle.std.specs.Prelude.{◌≡◌, ◌∷◌, [], codes, IfOk, IfErr};
ghost use Rattle.dt_names.specs.Fault.{IsNoMemory};
ghost use Rattle.dt_overlay_object.specs.Stages.{IsEmptyLanding};

use dt_names::{Fault, NodeName, Path, Seed};
use dt_overlay_base::Places;
use std::alloc::Global;
use std::marker::Model;

/// The path of the node that holds a tree's labels, `/__symbols__`.
#[derive(Drop)]
pub struct SymbolsPath {
    path: Path,
}

impl Model for SymbolsPath {
    ghost use Rattle.std.specs.Prelude.{◌≡◌, ◌∷◌, [], codes};
    ghost use Rattle.dt_model.specs.Path.{Path};

    ghost Value = { Path };

    ghost view = { λ s. s.path };

    ghost invariant = { λ s. s.path ≡ codes "__symbols__" ∷ [] };
}

impl SymbolsPath {
    /// The path, in memory of its own.
    ///
    /// # Errors
    ///
    /// `NoMemory`, which has no place.
    pub fn new(alloc: Global) -> Result<SymbolsPath, Fault>
        ensures { IfErr result IsNoMemory }
    {
        let name = NodeName::new(b"__symbols__".as_slice())?;
        let mut path = Path::root(alloc);
        path.push(&name)?;
        Ok(SymbolsPath { path })
    }

    /// The path.
    pub fn path(&self) -> &Path
        ensures { result.now ≡ codes "__symbols__" ∷ [] }
    {
        &self.path
    }
}

/// Where an object lands: its fragments' sites and what is known of the places on which its nodes land.
#[derive(Drop)]
pub struct Landing {
    /// The sites of the fragments that have one so far, in order.
    pub sites: Vec<Path>,
    /// The places on which nodes land, with the numbers that they got.
    pub places: Places,
    /// Where labels are set.
    pub symbols: SymbolsPath,
    /// Room for the text of a path.
    pub text: Vec<u8>,
}

impl Landing {
    /// Nothing has landed. Paths and numbers will be hashed behind the seed.
    ///
    /// # Errors
    ///
    /// `NoMemory`, which has no place.
    pub fn new(alloc: Global, seed: Seed) -> Result<Landing, Fault>
        ensures empty { IfOk result IsEmptyLanding }
        ensures refused { IfErr result IsNoMemory }
    {
        Ok(Landing {
            sites: Vec::new(alloc),
            places: Places::new(alloc, seed),
            symbols: SymbolsPath::new(alloc)?,
            text: Vec::new(alloc),
        })
    }
}
