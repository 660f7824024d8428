ghost use Rattle.std.specs.Prelude.{◌≡◌, ◌++◌, ◌∷◌, [], option_map, IfOk, OnOk};
ghost use Rattle.page_directives.specs.Taglibs.{prefixes_of};
ghost use Rattle.unit_source.specs.ReadParts.{ArePlain, in_part, in_parts};

use crate::WrittenDirective;
use crate::prefixes::prefixes_of;
use page_pieces::Prefixes;
use pg_text::Listed;
use std::alloc::{AllocError, Global};
use std::marker::Model;
use std::mem;

// Directives of a file none of which includes another, and the include directive behind them, with
// the prefixes that they register.
#[derive(Drop)]
pub(crate) struct Part {
    plain: Listed<WrittenDirective>,
    include: Option<WrittenDirective>,
    prefixes: Prefixes,
}

impl Model for Part {
    ghost use Rattle.std.specs.Prelude.{◌≡◌};
    ghost use Rattle.page_directives.specs.Taglibs.{prefixes_of};
    ghost use Rattle.unit_source.specs.ReadParts.{ArePlain, Part as Seen, in_part};

    ghost Value = { Seen };

    ghost view = { λ p. record { plain = p.plain; include = p.include } };

    ghost invariant = { λ p. (ArePlain p.plain)
        × (p.prefixes ≡ prefixes_of (in_part (record { plain = p.plain; include = p.include }))) };
}

impl Part {
    // Plain directives with an include directive behind them, or without.
    pub fn new(
        alloc: Global,
        plain: Listed<WrittenDirective>,
        include: Option<WrittenDirective>,
    ) -> Result<Self, AllocError>
        requires { ArePlain plain }
        ensures { IfOk result (λ part. part ≡ record { plain = plain; include = include }) }
    {
        let prefixes = prefixes_of(alloc, plain.as_slice(), include.as_ref())?;
        Ok(Part {
            plain,
            include,
            prefixes,
        })
    }

    // The directives before the include directive, or before the end of the file.
    pub fn plain(&self) -> &[WrittenDirective]
        ensures { result.now ≡ self.now.plain }
    {
        self.plain.as_slice()
    }

    // The include directive that ends the part: the last part of a file has none.
    pub fn include(&self) -> Option<&WrittenDirective>
        ensures directive { option_map (λ d. d.now) result ≡ self.now.include }
        ensures are_plain { ArePlain self.now.plain }
    {
        self.include.as_ref()
    }

    // The prefixes that all these directives register, gathered once.
    pub fn prefixes(&self) -> &Prefixes
        ensures { result.now ≡ prefixes_of (in_part self.now) }
    {
        &self.prefixes
    }
}

// Directives, cut behind each include directive.
pub(crate) fn parts_of(
    alloc: Global,
    directives: &[WrittenDirective],
) -> Result<Listed<Part>, AllocError>
    ensures { IfOk result (λ parts. in_parts parts ≡ directives.now) }
{
    let mut parts = Listed::empty(alloc);
    let mut plain = Listed::empty(alloc);
    for directive in directives {
        push_directive(alloc, &mut parts, &mut plain, directive.copy()?)?;
    }
    parts.push(Part::new(alloc, plain, None)?)?;
    Ok(parts)
}

// Adds a directive to the plain ones, or with these as a part where it is an include directive.
#[tactic(auto, using(crate::proofs::PartLemmas::plain_more))]
fn push_directive(
    alloc: Global,
    parts: &mut Listed<Part>,
    plain: &mut Listed<WrittenDirective>,
    directive: WrittenDirective,
) -> Result<(), AllocError>
    requires { ArePlain plain.old }
    ensures plain { OnOk result (ArePlain plain.new) }
    ensures all { OnOk result (in_parts parts.new ++ plain.new
        ≡ (in_parts parts.old ++ plain.old) ++ directive ∷ []) }
{
    if directive.name() != "include" {
        plain.push(directive)?;
        return Ok(());
    }
    let before = mem::replace(plain, Listed::empty(alloc));
    parts.push(Part::new(alloc, before, Some(directive))?)?;
    Ok(())
}
