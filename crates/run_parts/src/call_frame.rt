// The frame with which a call of a tag file begins.
ghost use Rattle.std.specs.Prelude.{◌≡◌, filter, is_some, length, map, not, IfOk};
ghost use Rattle.page_meaning.specs.Attributes.{table_of};
ghost use Rattle.page_meaning.specs.Tags.{first_frame, is_declared, with_dynamic};
ghost use Rattle.pg_text.specs.Failure.{Answers};
ghost use Rattle.pg_value.specs.Attrs.{of_entries};
ghost use Rattle.pg_value.specs.Value.{datum_of, entry_of};
ghost use Rattle.tag_decl.specs.Declare.{declared};

use pg_text::{Failure, Text};
use pg_value::{Attrs, Record, RunFault, Value};
use run_values::{measured, table_of};
use std::alloc::{AllocError, Global};
use tag_decl::{TagDecl, declared};

/// The variables of a call: its declared attributes, and the record of the others, where they are
/// taken: X20. Of two values of one name the first that was written stands.
pub fn first_frame(
    alloc: Global,
    decl: &TagDecl,
    names: &[Text],
    values: &[Value],
) -> Result<Attrs, Failure<RunFault>>
    requires { length values.now ≡ length names.now }
    ensures { Answers (first_frame decl.now (table_of names.now (map datum_of values.now))) result }
{
    let table = table_of(alloc, names, values)?;
    let frame = declared_values(alloc, decl, &table)?;
    with_others(alloc, decl, &table, frame)
}

// The frame with the record of the undeclared values, where the tag file takes them: X20.
fn with_others(
    alloc: Global,
    decl: &TagDecl,
    table: &[(Text, Value)],
    frame: Attrs,
) -> Result<Attrs, Failure<RunFault>>
    ensures { Answers (with_dynamic decl.now.dynamic (filter (λ v. not (is_declared decl.now v))
        (map entry_of table.now)) frame) result }
{
    let Some(name) = &decl.dynamic else {
        return Ok(frame);
    };
    let others = Record::new(undeclared_values(alloc, decl, table)?)?;
    let others = measured(Value::Rec(others))?;
    let mut entries = frame;
    entries.insert(name.copy()?, others)?;
    Ok(entries)
}

// The values of declared attributes, of one name the last.
fn declared_values(
    alloc: Global,
    decl: &TagDecl,
    table: &[(Text, Value)],
) -> Result<Attrs, AllocError>
    ensures { IfOk result (λ entries. entries
        ≡ of_entries (filter (is_declared decl.now) (map entry_of table.now))) }
{
    let mut entries = Attrs::empty(alloc);
    for (name, value) in table {
        if is_declared(decl, name) {
            entries.insert(name.copy()?, value.copy()?)?;
        }
    }
    Ok(entries)
}

// The values of the other attributes, of one name the last.
fn undeclared_values(
    alloc: Global,
    decl: &TagDecl,
    table: &[(Text, Value)],
) -> Result<Attrs, AllocError>
    ensures { IfOk result (λ entries. entries
        ≡ of_entries (filter (λ v. not (is_declared decl.now v)) (map entry_of table.now))) }
{
    let mut entries = Attrs::empty(alloc);
    for (name, value) in table {
        if !is_declared(decl, name) {
            entries.insert(name.copy()?, value.copy()?)?;
        }
    }
    Ok(entries)
}

// Whether an attribute of this name is declared.
fn is_declared(decl: &TagDecl, name: &Text) -> bool
    ensures { result ≡ is_some (declared name.now decl.now.attributes) }
{
    declared(&decl.attributes, name.as_str()).is_some()
}
