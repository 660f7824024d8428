ghost use Rattle.std.specs.Prelude.{◌≡◌, ◌∷◌, map, IfOk};
ghost use Rattle.jstl_tags.specs.Check.{child_faults};
ghost use Rattle.std.specs.Option.{option_map};
ghost use Rattle.page_pieces.specs.Settings.{contains_text};
ghost use Rattle.page_reader.specs.Trees.{Tree};
ghost use Rattle.page_directives.specs.Faults.{in_order};
ghost use Rattle.jstl_tags.specs.Elements.{opened_of};
ghost use Rattle.jstl_tags.specs.Hosts.{host_made};
ghost use Rattle.jstl_tags.specs.Rows.{row_made};
ghost use Rattle.jstl_tags.specs.Content.{inner};
ghost use Rattle.jstl_tags.specs.Standing.{IsBody, standing_in, standing_made};
ghost use Rattle.unit_source.specs.InPlace.{flat};
ghost use Rattle.unit_source.specs.Placed.{in_place};
ghost use Rattle.unit_words.specs.Elements.{Here as Around, attribute_faults};
ghost use Rattle.unit_words.specs.Elements.{element_faults, given_value_faults, kind_faults};
ghost use Rattle.unit_words.specs.Elements.{own_faults, value_faults};
ghost use Rattle.unit_judges.specs.Made.{here_made, kind_made};

use crate::beginning::Beginning;
use crate::body::{push_inner, standings_of};
use crate::calls::{call_faults, call_value_faults};
use crate::kind::Kind;
use crate::known::Known;
use jstl_tags::{
    Body, Given, Host, Row, Standing, Standings, Takes, child_faults, core_faults, place_faults,
    row_faults, taken_faults, takes_of,
};
use page_directives::Faults;
use page_pieces::Attribute;
use page_reader::Element;
use pg_text::TranslationFault;
use std::alloc::{AllocError, Global};
use tag_decl::TagDecl;
use unit_nodes::JspName;
use unit_source::MAX_NESTING;

// The fault of an attribute that `jsp:attribute` gives, by what it takes: a value that is text, or
// one `${name}`, is written. One that is unknown or left out is refused at its action.
fn given_value_faults(takes: Option<Takes>) -> Faults
    ensures { result ≡ in_order (given_value_faults takes) }
{
    match takes {
        None => Faults::none(),
        Some(Takes::AnyValue) => Faults::none(),
        Some(Takes::LeftOut) => Faults::none(),
        Some(Takes::OneName) => Faults::one(TranslationFault::LeftOut),
        Some(_) => Faults::one(TranslationFault::BadAttribute),
    }
}

// The fault of a `jsp:attribute` of that name in an action of this row.
fn attribute_faults(name: Option<&str>, row: Option<Row>) -> Faults
    ensures { result ≡ in_order (attribute_faults (option_map (λ name. name.now) name.entry)
        (option_map row_made row)) }
{
    match (name, row) {
        (Some(name), Some(row)) => given_value_faults(takes_of(name, row.attributes)),
        _ => Faults::none(),
    }
}

// The faults of a standard action that its row doesn't say.
fn own_faults(action: JspName, row: Option<Row>, head: &Element, body: Body) -> Faults
    ensures { (tree : Tree) (here : Around) → IsBody body.entry tree → here.row ≡ option_map row_made row
        → result ≡ in_order (own_faults action here (opened_of head.now) tree) }
{
    match action {
        JspName::Attribute => attribute_faults(head.attributes.plain("name"), row),
        JspName::SetProperty => {
            let given = Given::of(head, body);
            let both = given.contains("value") && given.contains("param");
            Faults::one_if(both, TranslationFault::BadAttribute)
        }
        _ => Faults::none(),
    }
}

// The faults of an element that has this one.
fn refused_faults(fault: TranslationFault, hosts: &[Host]) -> Faults
    ensures { result ≡ in_order (fault ∷ child_faults (map host_made hosts.now)) }
{
    Faults::one(fault).and(child_faults(hosts))
}

// The faults of an element by its kind.
fn kind_faults(known: Known, beginning: Beginning, hosts: &[Host], body: Body) -> Faults
    ensures { (here : Around) → IsBody body.entry (flat (in_place beginning.entry.element.now.body.items)) →
        here.around ≡ map host_made hosts.now → here.row ≡ option_map row_made beginning.entry.here.row
        → result ≡ in_order (kind_faults (λ prefix. contains_text prefix known.entry.core.now)
        known.entry.in_tag (option_map (λ decl. decl.now) known.entry.decl)
        (kind_made beginning.entry.kind.now) here (opened_of beginning.entry.element.now.head)
        (flat (in_place beginning.entry.element.now.body.items))) }
{
    let Known { core, in_tag, decl } = known;
    let Beginning {
        here,
        kind,
        element,
    } = beginning;
    let head = &element.head;
    match kind {
        Kind::Core(tag, row) => core_faults(core, (*tag, *row), hosts, head, body),
        Kind::Standard(action, standard) => place_faults(in_tag, standard.stands, hosts).and(
            row_faults(core, standard, head, body).and(own_faults(*action, here.row, head, body)),
        ),
        Kind::Call(_) => child_faults(hosts).and(call_faults(decl, head, body)),
        Kind::Refused(fault) => refused_faults(*fault, hosts),
    }
}

// The same, by what stands in its body, and in the `jsp:body` elements there.
fn faults_by_body(
    known: Known,
    beginning: Beginning,
    hosts: &[Host],
    standing: &Standings,
    within: &[Standing],
) -> Faults
    ensures { (here : Around) →
        map standing_made standing.now ≡ standing_in (flat (in_place beginning.entry.element.now.body.items)) →
        map standing_made within.now
        ≡ standing_in (inner (flat (in_place beginning.entry.element.now.body.items))) →
        here.around ≡ map host_made hosts.now → here.row ≡ option_map row_made beginning.entry.here.row
        → result ≡ in_order (kind_faults (λ prefix. contains_text prefix known.entry.core.now)
        known.entry.in_tag (option_map (λ decl. decl.now) known.entry.decl)
        (kind_made beginning.entry.kind.now) here (opened_of beginning.entry.element.now.head)
        (flat (in_place beginning.entry.element.now.body.items))) }
{
    let body = Body {
        standing,
        inner: within,
    };
    kind_faults(known, beginning, hosts, body)
}

/// The faults of an element at its beginning.
pub fn element_faults(
    alloc: Global,
    known: Known,
    beginning: Beginning,
) -> Result<Faults, AllocError>
    ensures { IfOk result (λ faults. faults ≡ in_order
        (element_faults (λ prefix. contains_text prefix known.entry.core.now) known.entry.in_tag
        (option_map (λ decl. decl.now) known.entry.decl) (kind_made beginning.entry.kind.now)
        (here_made beginning.entry.here) (opened_of beginning.entry.element.now.head)
        (flat (in_place beginning.entry.element.now.body.items)))) }
{
    let here = beginning.here;
    let body = &beginning.element.body;
    let standing = standings_of(alloc, body)?;
    let mut inner = Vec::new(alloc);
    push_inner(body, &mut inner)?;
    let hosts = here.around.hosts(alloc)?;
    let deep = Faults::one_if(here.deep >= MAX_NESTING, TranslationFault::TooLarge);
    let by_kind = faults_by_body(known, beginning, &hosts, &standing, &inner);
    Ok(deep.and(by_kind))
}

/// The faults of a value by its element's kind.
pub fn value_faults(
    alloc: Global,
    decl: Option<&TagDecl>,
    kind: &Kind,
    attribute: &Attribute,
) -> Result<Faults, AllocError>
    ensures { IfOk result (λ faults. faults ≡ in_order
        (value_faults (option_map (λ decl. decl.now) decl.entry) (kind_made kind.now) attribute.now)) }
{
    let name = attribute.name.as_str();
    let parts = attribute.parts.as_slice();
    match kind {
        Kind::Core(_, row) => taken_faults(alloc, takes_of(name, row.attributes), parts),
        Kind::Standard(_, row) => taken_faults(alloc, takes_of(name, row.attributes), parts),
        Kind::Call(_) => Ok(call_value_faults(decl, attribute)),
        _ => Ok(Faults::none()),
    }
}
