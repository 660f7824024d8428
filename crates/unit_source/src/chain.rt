ghost use Rattle.std.specs.Prelude.{◌≡◌, ◌∷◌, [], IfOk};
ghost use Rattle.std.specs.Option.{option_map};
ghost use Rattle.page_pieces.specs.Settings.{contains_text};
ghost use Rattle.unit_source.specs.Files.{path_in};
ghost use Rattle.unit_source.specs.First.{included_path};

use crate::WrittenDirective;
use pg_text::{Failure, Path, resolve};
use std::alloc::{AllocError, Global};
use std::marker::Model;

// The files that are being read, each included by the next: the innermost first. A file that is
// entered stands before those around it, which it borrows. Contracts see the list of the paths.
#[derive(Drop)]
pub(crate) struct Chain<'c> {
    innermost: Option<(&'c Path, &'c Chain<'c>)>,
}

impl<'c> Model for Chain<'c> {
    ghost use Rattle.std.specs.Prelude.{List, [], ◌∷◌, ℕ, length};
    ghost use Rattle.std.specs.Option.{option_map_or};
    ghost use Rattle.std.proofs.Common.{arith};

    ghost Value = { List (List ℕ) };

    ghost view = { λ c. option_map_or (λ file. file.0.now ∷ file.1.now) c.innermost [] };

    ghost size = { length };

    ghost size_decreases = { λ c h. Prim.grind (arith) };
}

impl<'c> Chain<'c> {
    // No file is being read.
    pub fn empty() -> Self
        ensures { result ≡ [] }
    {
        Chain { innermost: None }
    }

    // The chain of a file that is entered: it, and then the files around it.
    pub fn entered(path: &'c Path, around: &'c Chain<'c>) -> Self
        ensures { result ≡ path.now ∷ around.now }
    {
        Chain {
            innermost: Some((path, around)),
        }
    }

    // Whether the file at a path is being read.
    pub fn contains(&self, path: &Path) -> bool
        ensures { result ≡ contains_text path.now self.now }
    {
        match self.innermost {
            Some((file, around)) => file.as_str() == path.as_str() || around.contains(path),
            None => false,
        }
    }
}

// The path that a text names in a file, where it names one.
fn path_in(alloc: Global, file: &Path, text: Option<&str>) -> Result<Option<Path>, AllocError>
    ensures { IfOk result (λ path. path ≡ path_in file.now (option_map (λ text. text.now) text.entry)) }
{
    let Some(text) = text else {
        return Ok(None);
    };
    match resolve(alloc, Some(file), text) {
        Ok(path) => Ok(Some(path)),
        Err(Failure::Fault(_)) => Ok(None),
        Err(Failure::NoMemory) => Err(AllocError),
    }
}

// The path of the file that an include directive names.
#[inline(never)]
pub(crate) fn included_path(
    alloc: Global,
    directive: &WrittenDirective,
) -> Result<Option<Path>, AllocError>
    ensures { IfOk result (λ path. path ≡ included_path directive.now) }
{
    if directive.name() != "include" {
        return Ok(None);
    }
    path_in(
        alloc,
        &directive.place().file,
        directive.attributes().plain("file"),
    )
}
