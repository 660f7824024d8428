ghost use Rattle.std.specs.Prelude.{IsUtf8, List, ℕ};
ghost use Rattle.journal_reader.specs.Reads.{Sorts};
ghost use Rattle.pg_text.specs.Names.{AreInOrder};
ghost use Rattle.pg_text.specs.Normal.{IsNormal};

use crate::part::Part;
use crate::rising::are_rising;
use crate::unread::Unread;
use edges::Source;
use pg_text::{Bytes, Failure, Listed, Names, Path, Text, normal_stands_for_itself, resolve};
use std::alloc::Global;
use std::str;

impl Part for Bytes {
    ghost use Rattle.site_journal.specs.Codes.{AreBytes, of_bytes};

    ghost is = { λ bytes. AreBytes bytes };

    ghost text = { λ bytes. of_bytes bytes };

    fn read<S: Source>(
        alloc: Global,
        source: &mut S,
        room: &mut u64,
    ) -> Result<Self, Failure<Unread>> {
        let bytes = Listed::<u8>::read(alloc, source, room)?;
        Ok(Bytes::new(bytes.into_vec()))
    }
}

impl Part for Text {
    ghost use Rattle.site_journal.specs.Codes.{IsText, of_bytes};

    ghost is = { λ text. IsText text };

    ghost text = { λ text. of_bytes text };

    fn read<S: Source>(
        alloc: Global,
        source: &mut S,
        room: &mut u64,
    ) -> Result<Self, Failure<Unread>> {
        let bytes = Bytes::read(alloc, source, room)?;
        text_of(alloc, &bytes)
    }
}

// The text that these bytes are, where they are UTF-8.
fn text_of(alloc: Global, bytes: &Bytes) -> Result<Text, Failure<Unread>>
    ensures { Sorts (λ text. text) IsUtf8 bytes.now result }
{
    match str::from_utf8(bytes.as_slice()) {
        Ok(text) => Ok(Text::copy_of(alloc, text)?),
        Err(_) => Err(Failure::Fault(Unread::NotThere)),
    }
}

impl Part for Path {
    ghost use Rattle.site_journal.specs.Codes.{of_bytes};
    ghost use Rattle.site_journal.specs.Reading.{IsPath};

    ghost is = { λ path. IsPath path };

    ghost text = { λ path. of_bytes path };

    fn read<S: Source>(
        alloc: Global,
        source: &mut S,
        room: &mut u64,
    ) -> Result<Self, Failure<Unread>> {
        let text = Text::read(alloc, source, room)?;
        path_of(alloc, text)
    }
}

// The path with this text, where it is in normal form.
fn path_of(alloc: Global, text: Text) -> Result<Path, Failure<Unread>>
    ensures { Sorts (λ path. path) IsNormal text result }
{
    normal_stands_for_itself();
    match resolve(alloc, None, text.as_str()) {
        Ok(path) if path.as_bytes() == text.as_bytes() => Ok(path),
        Err(Failure::NoMemory) => Err(Failure::NoMemory),
        _ => Err(Failure::Fault(Unread::NotThere)),
    }
}

impl Part for Names {
    ghost use Rattle.site_journal.specs.Codes.{IsList, of_bytes, of_list};
    ghost use Rattle.site_journal.specs.Reading.{IsPath};

    ghost is = { λ names. IsList IsPath names × AreInOrder names };

    ghost text = { λ names. of_list of_bytes names };

    fn read<S: Source>(
        alloc: Global,
        source: &mut S,
        room: &mut u64,
    ) -> Result<Self, Failure<Unread>> {
        let paths = Listed::<Path>::read(alloc, source, room)?;
        names_of(paths)
    }
}

// These paths, where they rise in byte order.
fn names_of(paths: Listed<Path>) -> Result<Names, Failure<Unread>>
    ensures { Sorts (λ names. names) AreInOrder paths result }
{
    if are_rising(paths.as_slice()) {
        Ok(Names::new(paths.into_vec()))
    } else {
        Err(Failure::Fault(Unread::NotThere))
    }
}
