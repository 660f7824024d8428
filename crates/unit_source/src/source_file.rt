ghost use Rattle.std.specs.Prelude.{◌≡◌, ◌≤◌, length, IfOk};
ghost use Rattle.unit_source.specs.First.{own_directives};
ghost use Rattle.unit_source.specs.ReadFiles.{source};
ghost use Rattle.unit_source.specs.ReadParts.{in_parts};

use crate::WrittenDirective;
use crate::own::read_own;
use crate::part::{Part, parts_of};
use pg_text::{Listed, Path, Text};
use source_tree::MAX_FILE_BYTES;
use std::alloc::{AllocError, Global};
use std::marker::Model;
use std::sync::Arc;

// A file of a tree with its first reading, whole and in parts. Its copies share all.
#[derive(Drop)]
pub(crate) struct SourceFile {
    path: Path,
    text: Text,
    own: Arc<Listed<WrittenDirective>>,
    parts: Arc<Listed<Part>>,
}

impl Model for SourceFile {
    ghost use Rattle.std.specs.Prelude.{◌≡◌, ◌≤◌, length};
    ghost use Rattle.source_tree.specs.declared.limits.TheConstants.{MAX_FILE_BYTES};
    ghost use Rattle.unit_source.specs.First.{own_directives};
    ghost use Rattle.unit_source.specs.ReadFiles.{Source, source};
    ghost use Rattle.unit_source.specs.ReadParts.{in_parts};

    ghost Value = { Source };

    ghost view = { λ f. source f.path f.text };

    ghost invariant = { λ f. (f.own.value ≡ own_directives f.path f.text)
        × (in_parts f.parts.value ≡ own_directives f.path f.text) × (length f.text ≤ MAX_FILE_BYTES) };
}

impl SourceFile {
    // Reads a file by itself.
    pub fn read(alloc: Global, path: Path, text: Text) -> Result<Self, AllocError>
        requires { length text ≤ MAX_FILE_BYTES }
        ensures { IfOk result (λ file. file ≡ source path text) }
    {
        let own = read_own(alloc, &path, text.as_str())?;
        let parts = parts_of(alloc, own.as_slice())?;
        Ok(SourceFile {
            path,
            text,
            own: Arc::new(alloc, own)?,
            parts: Arc::new(alloc, parts)?,
        })
    }

    // The same file, which shares what was read of it.
    pub fn copy(&self) -> Result<Self, AllocError>
        ensures { IfOk result (λ copy. copy ≡ self.now) }
    {
        Ok(SourceFile {
            path: self.path.copy()?,
            text: self.text.copy()?,
            own: Arc::try_clone(&self.own)?,
            parts: Arc::try_clone(&self.parts)?,
        })
    }

    pub fn path(&self) -> &Path
        ensures { result.now ≡ self.now.path }
    {
        &self.path
    }

    pub fn text(&self) -> &str
        ensures text { result.now ≡ self.now.text }
        ensures within { length self.now.text ≤ MAX_FILE_BYTES }
    {
        self.text.as_str()
    }

    // The directives of the file by itself.
    pub fn own(&self) -> &[WrittenDirective]
        ensures { result.now ≡ own_directives self.now.path self.now.text }
    {
        self.own.as_slice()
    }

    // The same, cut behind each include directive.
    pub fn parts(&self) -> &[Part]
        ensures { in_parts result.now ≡ own_directives self.now.path self.now.text }
    {
        self.parts.as_slice()
    }
}
