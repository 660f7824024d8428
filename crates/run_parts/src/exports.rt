// The variables that a call of a tag file gives its caller.
ghost use Rattle.std.specs.Prelude.{◌≡◌, ◌<◌, [], ◌∷◌, length, map, option_map, IfOk};
ghost use Rattle.el_coercion.specs.Text.{text_of};
ghost use Rattle.page_meaning.specs.Exports.{copied_out, exports_of, given_back, is_at_end};
ghost use Rattle.page_meaning.specs.Exports.{is_at_fragment, is_nested, outer_name};
ghost use Rattle.page_meaning.specs.State.{in_scopes};
ghost use Rattle.page_meaning.specs.Variables.{entries_of_frame};
ghost use Rattle.page_meaning.specs.Went.{Well};
ghost use Rattle.pg_value.specs.Value.{datum_of};
ghost use Rattle.run_parts.specs.Exports.{change_of, changed_by, is_copied, nested_changes};
ghost use Rattle.run_parts.specs.Exports.{own_changes, unwrap_or_empty};
ghost use Rattle.run_world.specs.Part.{Doing};
ghost use Rattle.run_world.specs.Seats.{export_of};
ghost use Rattle.scopes.specs.Scopes.{ScopeState, turned_to};

use el_coercion::to_text;
use pg_text::{Failure, Text};
use pg_value::{Attrs, RunFault, Value};
use run_world::{Export, World};
use scopes::{HeldScope, Scopes};
use std::alloc::{AllocError, Global};
use tag_decl::{VarDecl, VarScope};

/// When variables are copied to the caller.
#[derive(Clone, Copy, Debug, PartialEq, Eq)]
pub(crate) enum CopyTime {
    /// Before a body or a fragment of the caller's runs: AT_BEGIN and NESTED ones.
    AtFragment,
    /// At the end of the call: AT_BEGIN and AT_END ones.
    AtEnd,
}

/// A name at the caller with the value that it gets there, or none where it goes.
#[derive(Drop)]
pub struct Change {
    pub name: Text,
    pub value: Option<Value>,
}

/// The variables that a call gives, by the values with which it begins.
pub fn exports_of(
    alloc: Global,
    entries: &Attrs,
    variables: &[VarDecl],
) -> Result<Vec<Export>, AllocError>
    ensures { IfOk result (λ exports. map export_of exports.items ≡ exports_of entries.now variables.now) }
{
    let mut exports = Vec::with_capacity(alloc, variables.len())?;
    for variable in variables {
        exports.push(Export {
            own: variable.name.copy()?,
            outer: outer_name(alloc, entries, variable)?,
            scope: variable.scope,
        })?;
    }
    Ok(exports)
}

// The name of a variable at the caller: its own, or the text of the attribute that names it.
fn outer_name(alloc: Global, entries: &Attrs, variable: &VarDecl) -> Result<Text, AllocError>
    ensures { IfOk result (λ name. name ≡ outer_name entries.now variable.now) }
{
    let Some(attribute) = &variable.from else {
        return variable.name.copy();
    };
    match entries.get(attribute.as_str()) {
        Some(value) => text_or_empty(alloc, value),
        None => Text::new(String::new(alloc)),
    }
}

// The text of a value, which is empty where it would be too large.
fn text_or_empty(alloc: Global, value: &Value) -> Result<Text, AllocError>
    ensures { IfOk result (λ text. text ≡ unwrap_or_empty (text_of (datum_of value.now))) }
{
    match to_text(alloc, value) {
        Ok(text) => Ok(text),
        Err(Failure::Fault(_)) => Text::new(String::new(alloc)),
        Err(Failure::NoMemory) => Err(AllocError),
    }
}

// Whether a variable is the caller's only while the body or a fragment runs.
fn is_nested(scope: VarScope) -> bool
    ensures { result ≡ is_nested scope }
{
    match scope {
        VarScope::Nested => true,
        VarScope::AtBegin | VarScope::AtEnd => false,
    }
}

// Whether a variable is copied at this time.
fn is_copied(time: CopyTime, scope: VarScope) -> bool
    ensures { result ≡ is_copied time scope }
{
    match (time, scope) {
        (CopyTime::AtFragment, VarScope::AtEnd) | (CopyTime::AtEnd, VarScope::Nested) => false,
        _ => true,
    }
}

// A name with a copy of a value, where there is one.
fn changed_to(name: &Text, value: Option<&Value>) -> Result<Change, AllocError>
    ensures { IfOk result (λ made. change_of made
        ≡ record { name = name.now; value = option_map (λ value. datum_of value.now) value.entry }) }
{
    let value = match value {
        Some(value) => Some(value.copy()?),
        None => None,
    };
    Ok(Change {
        name: name.copy()?,
        value,
    })
}

// What each variable that is copied at this time gets at the caller: what it is in the current
// frame under its own name.
fn own_changes(
    alloc: Global,
    time: CopyTime,
    exports: &[Export],
    scopes: &Scopes,
) -> Result<Vec<Change>, AllocError>
    ensures { IfOk result (λ changes. map change_of changes.items
        ≡ own_changes (is_copied time) (map export_of exports.now)
        (entries_of_frame scopes.now scopes.now.current)) }
{
    let mut changes = Vec::new(alloc);
    for export in exports {
        if is_copied(time, export.scope) {
            let value = scopes.find_in(HeldScope::Page, export.own.as_str());
            changes.push(changed_to(&export.outer, value)?)?;
        }
    }
    Ok(changes)
}

/// What brings the NESTED variables back at the caller: what stands under their names there in the
/// current frame.
pub fn nested_changes(
    alloc: Global,
    exports: &[Export],
    scopes: &Scopes,
) -> Result<Vec<Change>, AllocError>
    ensures { IfOk result (λ changes. map change_of changes.items
        ≡ nested_changes (map export_of exports.now) (entries_of_frame scopes.now scopes.now.current)) }
{
    let mut changes = Vec::new(alloc);
    for export in exports {
        if is_nested(export.scope) {
            let value = scopes.find_in(HeldScope::Page, export.outer.as_str());
            changes.push(changed_to(&export.outer, value)?)?;
        }
    }
    Ok(changes)
}

// Puts a value into the current frame, or takes out what stands there.
fn make<W: World>(change: &Change, world: &mut W) -> Result<(), Failure<RunFault>>
    requires covered { W.covered world.old }
    ensures covered { W.covered world.new }
    ensures does { Doing W.reached W.replies (λ u. u) (λ place s.
        Well tt (changed_by (change_of change.now ∷ []) s)) world.old world.new result }
    ensures frames { length (W.variables world.new).frames ≡ length (W.variables world.old).frames }
{
    match &change.value {
        Some(value) => world.set(HeldScope::Page, &change.name, value.copy()?),
        None => {
            world.remove(HeldScope::Page, change.name.as_str());
            Ok(())
        }
    }
}

// Makes all these changes in the current frame.
fn make_all<W: World>(changes: &[Change], world: &mut W) -> Result<(), Failure<RunFault>>
    requires covered { W.covered world.old }
    ensures covered { W.covered world.new }
    ensures does { Doing W.reached W.replies (λ u. u) (λ place s.
        Well tt (changed_by (map change_of changes.now) s)) world.old world.new result }
    ensures frames { length (W.variables world.new).frames ≡ length (W.variables world.old).frames }
{
    for change in changes {
        make(change, world)?;
    }
    Ok(())
}

/// Copies AT_BEGIN and NESTED variables from the current frame to the caller's. The current frame
/// is then the same as before.
pub fn copy_out<W: World>(
    alloc: Global,
    exports: &[Export],
    frame: u32,
    world: &mut W,
) -> Result<(), Failure<RunFault>>
    requires covered { W.covered world.old }
    requires there { frame < length (W.variables world.old).frames }
    ensures covered { W.covered world.new }
    ensures frames { length (W.variables world.new).frames ≡ length (W.variables world.old).frames }
    ensures does { Doing W.reached W.replies (λ u. u) (λ place s.
        Well tt (in_scopes (copied_out is_at_fragment (map export_of exports.now) frame s.scopes) s))
        world.old world.new result }
{
    let changes = own_changes(alloc, CopyTime::AtFragment, exports, world.scopes())?;
    let own = world.frame();
    world.turn_to(frame);
    make_all(&changes, world)?;
    world.turn_to(own);
    Ok(())
}

/// The end of a call that went well: AT_BEGIN and AT_END variables are copied to the caller, and
/// NESTED ones get back what they were before.
pub fn give_back<W: World>(
    alloc: Global,
    exports: &[Export],
    before: &[Change],
    frame: u32,
    world: &mut W,
) -> Result<(), Failure<RunFault>>
    requires covered { W.covered world.old }
    requires there { frame < length (W.variables world.old).frames }
    ensures covered { W.covered world.new }
    ensures frames { length (W.variables world.new).frames ≡ length (W.variables world.old).frames }
    ensures does { (scopes : ScopeState) → map change_of before.now
        ≡ nested_changes (map export_of exports.now) (entries_of_frame scopes frame)
        → Doing W.reached W.replies (λ u. u) (λ place s.
        Well tt (in_scopes (turned_to (given_back (map export_of exports.now) scopes frame
        (copied_out is_at_end (map export_of exports.now) frame s.scopes)) frame) s)) world.old world.new result }
{
    let changes = own_changes(alloc, CopyTime::AtEnd, exports, world.scopes())?;
    world.turn_to(frame);
    make_all(&changes, world)?;
    make_all(before, world)
}
