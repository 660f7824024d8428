ghost use Rattle.std.specs.Prelude.{◌≡◌, ◌++◌, codes, option_map, IfOk, OnOk, if◌then◌else◌};
ghost use Rattle.std.specs.Option.{option_to_list};
ghost use Rattle.std.specs.Str.{bytes_eq};
ghost use Rattle.page_pieces.specs.Settings.{value_of};
ghost use Rattle.page_directives.specs.Taglibs.{prefixes_of};

use crate::WrittenDirective;
use page_pieces::{Attributes, Prefixes};
use pg_text::{Listed, Text};
use std::alloc::{AllocError, Global};

// Adds the prefix that a directive with this name registers by itself.
pub(crate) fn push_own(
    alloc: Global,
    prefixes: &mut Listed<Text>,
    name: &str,
    attributes: &Attributes,
) -> Result<(), AllocError>
    ensures { OnOk result (prefixes.new ≡ prefixes.old ++ option_to_list
        (if bytes_eq name.now (codes "taglib") then value_of (codes "prefix") attributes.now else None)) }
{
    if name == "taglib" {
        if let Some(prefix) = attributes.plain("prefix") {
            return prefixes.push(Text::copy_of(alloc, prefix)?);
        }
    }
    Ok(())
}

// The prefixes that directives register.
fn listed_prefixes(
    alloc: Global,
    directives: &[WrittenDirective],
) -> Result<Listed<Text>, AllocError>
    ensures { IfOk result (λ prefixes. prefixes ≡ prefixes_of directives.now) }
{
    let mut prefixes = Listed::empty(alloc);
    for directive in directives {
        push_own(
            alloc,
            &mut prefixes,
            directive.name(),
            directive.attributes(),
        )?;
    }
    Ok(prefixes)
}

// Adds the prefix that a directive registers, where there is a directive.
fn push_last(
    alloc: Global,
    prefixes: &mut Listed<Text>,
    last: Option<&WrittenDirective>,
) -> Result<(), AllocError>
    ensures { OnOk result (prefixes.new ≡ prefixes.old ++ prefixes_of (option_to_list
        (option_map (λ d. d.now) last.entry))) }
{
    let Some(last) = last else {
        return Ok(());
    };
    push_own(alloc, prefixes, last.name(), last.attributes())?;
    Ok(())
}

// The prefixes that directives and one behind them register, to be looked up and to be shared.
#[tactic(auto, using(crate::proofs::PartLemmas::prefixes_both))]
pub(crate) fn prefixes_of(
    alloc: Global,
    directives: &[WrittenDirective],
    last: Option<&WrittenDirective>,
) -> Result<Prefixes, AllocError>
    ensures { IfOk result (λ prefixes. prefixes ≡ prefixes_of (directives.now
        ++ option_to_list (option_map (λ d. d.now) last.entry))) }
{
    let mut listed = listed_prefixes(alloc, directives)?;
    push_last(alloc, &mut listed, last)?;
    let mut prefixes = Prefixes::new(alloc);
    prefixes.push_all(listed.as_slice())?;
    prefixes.close()?;
    Ok(prefixes)
}
