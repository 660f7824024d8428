ghost use Rattle.std.specs.Prelude.{◌≡◌, ◌++◌, IfOk, OnOk};
ghost use Rattle.page_pieces.specs.Settings.{first_setting, registered_by, setting_after};

use crate::attribute::Attributes;
use crate::brought::Brought;
use crate::name_list::NameList;
use crate::piece::{Leaf, Piece};
use pg_text::Duplicate;
use std::alloc::{AllocError, Global};

/// Prefixes of elements.
pub type Prefixes = NameList;

/// The prefixes that an include directive brings, and the byte at which that directive begins.
#[derive(Drop)]
pub struct BroughtPrefixes {
    pub byte: u32,
    pub prefixes: Prefixes,
}

impl Duplicate for BroughtPrefixes {
    fn duplicate(&self) -> Result<Self, AllocError> {
        Ok(BroughtPrefixes {
            byte: self.byte,
            prefixes: self.prefixes.copy()?,
        })
    }
}

/// Under what a file is read.
#[derive(Drop)]
pub struct Setting {
    /// The prefixes that are registered before the file.
    pub prefixes: Prefixes,
    /// What the include directives of the file bring.
    pub brought: Brought,
    /// Whether expressions are on.
    pub el: bool,
    /// Whether `#{` is text.
    pub hash_is_text: bool,
}

impl Setting {
    /// The setting of the first reading: no prefixes but the file's own, expressions are on, and
    /// `#{` is text.
    pub fn first(alloc: Global) -> Self
        ensures { result ≡ first_setting }
    {
        Setting {
            prefixes: Prefixes::new(alloc),
            brought: Brought::empty(alloc),
            el: true,
            hash_is_text: true,
        }
    }

    /// The setting behind a piece that begins at this byte.
    pub fn after_piece(self, byte: u32, piece: &Piece) -> Result<Self, AllocError>
        ensures { IfOk result (λ setting. setting ≡ setting_after self byte piece.now) }
    {
        let mut setting = self;
        register(&mut setting, byte, piece)?;
        Ok(setting)
    }

    /// An equal setting.
    pub fn copy(&self) -> Result<Self, AllocError>
        ensures { IfOk result (λ copy. copy ≡ self.now) }
    {
        Ok(Setting {
            prefixes: self.prefixes.copy()?,
            brought: self.brought.copy()?,
            el: self.el,
            hash_is_text: self.hash_is_text,
        })
    }
}

// The setting becomes the one behind a piece that begins at this byte.
fn register(setting: &mut Setting, byte: u32, piece: &Piece) -> Result<(), AllocError>
    ensures { OnOk result (setting.new ≡ setting_after setting.old byte piece.now) }
{
    match piece {
        Piece::Leaf(Leaf::Directive(name, attributes)) => {
            register_directive(setting, byte, name.as_str(), attributes)
        }
        _ => Ok(()),
    }
}

// The prefixes that a directive registers come behind those that are there.
fn register_directive(
    setting: &mut Setting,
    byte: u32,
    name: &str,
    attributes: &Attributes,
) -> Result<(), AllocError>
    ensures { OnOk result (setting.new ≡ record setting.old {
      prefixes = setting.old.prefixes
          ++ registered_by setting.old.brought byte name.now attributes.now;
    }) }
{
    if name == "taglib" {
        if let Some(prefix) = attributes.plain("prefix") {
            setting.prefixes.push_copy(prefix)?;
        }
        return Ok(());
    }
    if name == "include" {
        setting.brought.register(byte, &mut setting.prefixes)?;
    }
    Ok(())
}
