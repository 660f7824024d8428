ghost use Rattle.std.specs.Prelude.{◌≡◌, ◌++◌, ◌∷◌, [], map, IfOk, OnOk};
ghost use Rattle.std.specs.Option.{option_map};
ghost use Rattle.std.specs.Str.{bytes_eq};
ghost use Rattle.page_directives.specs.Faults.{in_order};
ghost use Rattle.page_directives.specs.Meet.{met_faults};
ghost use Rattle.tag_decl.specs.Declare.{attributes_of};
ghost use Rattle.tag_decl.specs.Faults.{declaring_faults};
ghost use Rattle.unit_source.specs.InPlace.{all_directives};
ghost use Rattle.unit_source.specs.Placed.{in_place, root_view};
ghost use Rattle.unit_words.specs.Directives.{where_stands};
ghost use Rattle.unit_words.specs.Elements.{outermost};
ghost use Rattle.unit_words.specs.Kinds.{is_core_prefix};
ghost use Rattle.unit_words.specs.Own.{root_directives};
ghost use Rattle.unit_build.specs.MadeSteps.{step_made};
ghost use Rattle.unit_build.specs.ReadCore.{core_in, core_of, is_among};
ghost use Rattle.unit_build.specs.ReadSteps.{steps_of};

use crate::steps::{Step, steps_of};
use crate::tag::declaration;
use page_directives::{Before, Directive, Faults, FirstReading, Target, Where};
use page_pieces::Prefixes;
use pg_text::Place;
use std::alloc::{AllocError, Global};
use std::marker::Model;
use tag_decl::{AttrDecls, DeclaredBefore, declaring_faults};
use unit_judges::Registered;
use unit_source::{Root, first_directives};

/// A page or a tag file with what its directives decide. Contracts see it as it was read.
#[derive(Drop)]
pub(crate) struct Decided<'r> {
    root: &'r Root,
    // The directives of both readings, in reading order.
    directives: Registered<'r>,
    first: FirstReading<'r>,
    // The prefixes of the core library.
    core: Prefixes,
    // The attributes that a tag file itself declares.
    declared: AttrDecls,
}

impl<'r> Model for Decided<'r> {
    ghost use Rattle.std.specs.Prelude.{◌≡◌};
    ghost use Rattle.std.specs.Coded.{codes};
    ghost use Rattle.tag_decl.specs.Declare.{attributes_of};
    ghost use Rattle.unit_source.specs.contracts.placed.PlacedNode as e;
    ghost use Rattle.unit_source.specs.declared.root.Root.{Root as Kept};
    ghost use Rattle.unit_source.specs.InPlace.{all_directives};
    ghost use Rattle.unit_source.specs.Placed.{in_place, root_view};
    ghost use Rattle.unit_words.specs.Kinds.{is_core_prefix};
    ghost use Rattle.unit_words.specs.Own.{root_directives};
    ghost use Rattle.unit_build.specs.ReadCore.{is_among};

    ghost Value = { Kept };

    ghost coded = { Prim.hlevel (codes, e.the_row.coded) };

    ghost view = { λ g. g.root.now };

    ghost invariant = { λ g. (g.directives ≡ all_directives (in_place g.root.now.nodes.items))
        × (g.first ≡ g.root.now.first)
        × (is_among g.core ≡ is_core_prefix g.directives)
        × (g.declared ≡ attributes_of (root_directives (root_view g.root.now))) };
}

// The prefixes of the core library by these directives.
fn core_prefixes(alloc: Global, directives: &Registered) -> Result<Prefixes, AllocError>
    ensures { IfOk result (λ core. core ≡ core_of directives.now directives.now) }
{
    let mut core = Prefixes::new(alloc);
    for directive in directives.as_slice() {
        push_core(&mut core, directives, directive.prefix())?;
    }
    Ok(core)
}

// Adds a prefix, where it is the core library's.
fn push_core(
    core: &mut Prefixes,
    directives: &Registered,
    prefix: Option<&str>,
) -> Result<(), AllocError>
    ensures { OnOk result (core.new ≡ core.old ++ core_in directives.now
        (option_map (λ prefix. prefix.now) prefix.entry)) }
{
    match prefix {
        Some(prefix) if is_core_prefix(directives, prefix) => core.push_copy(prefix),
        _ => Ok(()),
    }
}

fn is_core_prefix(directives: &Registered, prefix: &str) -> bool
    ensures { result ≡ is_core_prefix directives.now prefix.now }
{
    match directives.target(prefix) {
        Some(Target::CoreLibrary) => true,
        _ => false,
    }
}

// The first reading of a page or a tag file.
fn first_reading<'r>(alloc: Global, root: &'r Root) -> Result<FirstReading<'r>, AllocError>
    ensures { IfOk result (λ first. first ≡ root.now.first) }
{
    let directives = first_directives(alloc, root)?;
    Ok(FirstReading::new(directives))
}

// The attributes that a page or a tag file itself declares.
#[tactic(auto, unfolding(tag_decl::specs::Declare::declaration))]
fn declared_attributes(alloc: Global, root: &Root) -> Result<AttrDecls, AllocError>
    ensures { IfOk result (λ declared. declared ≡ attributes_of (root_directives (root_view root.now))) }
{
    let declared = declaration(alloc, root)?;
    Ok(declared.attributes)
}

// The directives of both readings of a page or a tag file, and the prefixes of the core library.
#[tactic(auto, using(crate::proofs::CoreLemmas::core_is))]
fn directives_and_core<'r>(
    alloc: Global,
    root: &'r Root,
) -> Result<(Registered<'r>, Prefixes), AllocError>
    ensures directives { IfOk result (λ both. both.0 ≡ all_directives (in_place root.now.nodes.items)) }
    ensures core { IfOk result (λ both. is_among both.1 ≡ is_core_prefix both.0) }
{
    let directives = Registered::in_nodes(alloc, &root.nodes)?;
    let core = core_prefixes(alloc, &directives)?;
    Ok((directives, core))
}

impl<'r> Decided<'r> {
    pub fn new(alloc: Global, root: &'r Root) -> Result<Self, AllocError>
        ensures { IfOk result (λ decided. decided ≡ root.now) }
    {
        let first = first_reading(alloc, root)?;
        let declared = declared_attributes(alloc, root)?;
        let (directives, core) = directives_and_core(alloc, root)?;
        Ok(Decided {
            root,
            directives,
            first,
            core,
            declared,
        })
    }

    pub fn in_tag(&self) -> bool
        ensures { result ≡ self.now.in_tag }
    {
        self.root.in_tag
    }

    /// The steps of the walk through it.
    pub fn steps(&self, alloc: Global) -> Result<Vec<Step<'r>>, AllocError>
        ensures { IfOk result (λ steps. map step_made steps.items
            ≡ steps_of (root_view self.now).directives outermost (root_view self.now).nodes) }
    {
        steps_of(alloc, &self.directives, &self.root.nodes)
    }

    /// The prefixes of the core library by all directives.
    pub fn core(&self) -> &Prefixes
        ensures { is_among result.now ≡ is_core_prefix (root_view self.now).directives }
    {
        &self.core
    }

    /// Whether a place is in the file itself, and in no file that it includes.
    pub fn has_own(&self, place: &Place) -> bool
        ensures { result ≡ bytes_eq place.now.file self.now.path }
    {
        place.file.as_str() == self.root.path.as_str()
    }

    /// Where a directive stands.
    pub fn where_stands(&self, directive: &Directive) -> Where
        ensures { result ≡ where_stands (root_view self.now) directive.now }
    {
        if !self.root.in_tag {
            Where::Page
        } else if self.has_own(directive.place()) {
            Where::TagFile
        } else {
            Where::TagFilePart
        }
    }

    /// Meets a directive: its faults by what stood before, and from now on it stands before.
    pub fn meet(
        &self,
        stands: Where,
        before: &mut Before<'r>,
        directive: Directive<'r>,
    ) -> Result<Faults, AllocError>
        ensures faults { IfOk result (λ faults. faults
            ≡ in_order (met_faults stands (root_view self.now).first before.old directive.entry)) }
        ensures before { OnOk result (before.new
            ≡ record {
              directives = before.old.directives ++ directive.entry
                  ∷ [];
              prefixes = before.old.prefixes;
            }) }
    {
        before.meet(stands, &self.first, directive)
    }

    /// The faults of what a directive declares in a tag file itself, behind these directives of it.
    pub fn declaring_faults(&self, own: &DeclaredBefore, directive: &Directive) -> Faults
        ensures { result ≡ in_order (declaring_faults (attributes_of (root_directives (root_view self.now)))
            own.now directive.now) }
    {
        declaring_faults(&self.declared, own, directive)
    }
}
