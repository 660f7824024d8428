ghost use Rattle.std.specs.Prelude.{◌≡◌};
ghost use Rattle.page_acts.specs.Views.{act_of};
ghost use Rattle.unit_meaning.specs.Page.{place_of};

use crate::addressing::Addressing;
use crate::enclosing::Enclosing;
use crate::named::{Property, Variable};
use el_reader::El;
use pg_text::{Path, Place, Text};
use pg_value::Scope;
use unit_nodes::UnitPart;

/// Template text, an expression in it, an action, or the call of a tag file. Faults that have no
/// place of their own stand at `place`.
#[derive(Drop)]
#[cycle(acts)]
pub enum Act<'u> {
    /// Template text.
    Template {
        text: &'u Text,
        place: &'u Place,
    },
    /// An expression in template text.
    Shown {
        el: &'u El,
        place: &'u Place,
    },
    /// An action around a body.
    Enclosed {
        action: Enclosing,
        attributes: Vec<ActAttribute<'u>>,
        body: Vec<Act<'u>>,
        place: &'u Place,
    },
    /// An action on an address with params.
    Addressed {
        action: Addressing,
        attributes: Vec<ActAttribute<'u>>,
        params: Vec<ActParam<'u>>,
        place: &'u Place,
    },
    /// `c:remove`.
    Remove {
        variable: Variable,
        place: &'u Place,
    },
    /// `c:catch`.
    Catch {
        variable: Option<Text>,
        body: Vec<Act<'u>>,
        place: &'u Place,
    },
    /// `c:choose`.
    Choose {
        branches: Vec<ActBranch<'u>>,
        place: &'u Place,
    },
    /// `jsp:useBean`.
    UseBean {
        name: Text,
        scope: Scope,
        class: Text,
        body: Vec<Act<'u>>,
        place: &'u Place,
    },
    /// `jsp:getProperty`.
    GetProperty {
        name: Text,
        property: Text,
        place: &'u Place,
    },
    /// `jsp:setProperty`.
    SetProperty {
        name: Text,
        property: Property,
        attributes: Vec<ActAttribute<'u>>,
        place: &'u Place,
    },
    /// Acts one after the other, as those of `jsp:text`. An action that stands for no act of its
    /// own is a group of none.
    Group {
        body: Vec<Act<'u>>,
        place: &'u Place,
    },
    /// `jsp:doBody`.
    DoBody {
        variable: Option<Variable>,
        place: &'u Place,
    },
    /// `jsp:invoke`.
    Invoke {
        fragment: Text,
        variable: Option<Variable>,
        place: &'u Place,
    },
    /// The call of the tag file at a path.
    Call {
        path: &'u Path,
        attributes: Vec<ActAttribute<'u>>,
        body: CallBody<'u>,
        place: &'u Place,
    },
}

impl<'u> Act<'u> {
    /// Where the faults of this act stand that have no place of their own.
    #[tactic(auto, using(crate::proofs::Rows::rows, crate::proofs::Places::places))]
    pub fn place(&self) -> &'u Place
        ensures { result.now ≡ place_of (act_of self.now) }
    {
        match self {
            Act::Template { place, .. } => place,
            Act::Shown { place, .. } => place,
            Act::Enclosed { place, .. } => place,
            Act::Addressed { place, .. } => place,
            Act::Remove { place, .. } => place,
            Act::Catch { place, .. } => place,
            Act::Choose { place, .. } => place,
            Act::UseBean { place, .. } => place,
            Act::GetProperty { place, .. } => place,
            Act::SetProperty { place, .. } => place,
            Act::Group { place, .. } => place,
            Act::DoBody { place, .. } => place,
            Act::Invoke { place, .. } => place,
            Act::Call { place, .. } => place,
        }
    }
}

/// An attribute whose value is evaluated. Those of an act stand in the order in which they are:
/// first those of its start tag.
#[derive(Drop)]
#[cycle(acts)]
pub enum ActAttribute<'u> {
    /// An attribute of a start tag.
    Written {
        name: &'u Text,
        parts: &'u [UnitPart],
        place: &'u Place,
    },
    /// An attribute that `jsp:attribute` gives.
    Given {
        name: Text,
        trim: bool,
        body: Vec<Act<'u>>,
        place: &'u Place,
    },
}

/// A param of an include, a forward or a url.
#[derive(Drop)]
#[cycle(acts)]
pub struct ActParam<'u> {
    pub attributes: Vec<ActAttribute<'u>>,
    pub body: Vec<Act<'u>>,
    pub place: &'u Place,
}

/// A branch of `c:choose`.
#[derive(Drop)]
#[cycle(acts)]
pub enum ActBranch<'u> {
    When {
        attributes: Vec<ActAttribute<'u>>,
        body: Vec<Act<'u>>,
        place: &'u Place,
    },
    Otherwise {
        body: Vec<Act<'u>>,
        place: &'u Place,
    },
}

/// The body of a call. `source` is its text as written.
#[derive(Drop)]
#[cycle(acts)]
pub enum CallBody<'u> {
    Absent,
    Given {
        source: &'u Text,
        body: Vec<Act<'u>>,
    },
}
