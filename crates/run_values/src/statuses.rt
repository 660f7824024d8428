ghost use Rattle.std.specs.Prelude.{◌≡◌, ◌<◌, length, map, pos, IfOk, OnOk, OnErr};
ghost use Rattle.el_ops.specs.Indexing.{or_null};
ghost use Rattle.page_meaning.specs.Attributes.{Values, value_at};
ghost use Rattle.page_meaning.specs.Rounds.{status_record};
ghost use Rattle.pg_value.specs.Attrs.{with_value_at};
ghost use Rattle.pg_value.specs.Datum.{number, null, truth};
ghost use Rattle.pg_value.specs.Equality.{is_same};
ghost use Rattle.pg_value.specs.Value.{datum_of, entry_of};
ghost use Rattle.run_values.specs.Rounds.{IsStatusOf, no_round, round_at, status_entries};

use crate::loop_values::value_at;
use crate::rounds::Mark;
use pg_text::Text;
use pg_value::{Attrs, Record, Value};
use std::alloc::{AllocError, Global};
use std::marker::Model;

// The places of the entries that tell the statuses of a loop apart, among all by rising keys.
const COUNT: usize = 1;

const CURRENT: usize = 2;

const FIRST: usize = 4;

const INDEX: usize = 5;

const LAST: usize = 6;

/// The values of a loop's attributes, under their names, and the statuses of its rounds, which are
/// made of them. Two records take turns, since the variable of the loop holds the last one until
/// it is given the next: that of the round before is set anew, in place where nothing else holds it
/// any more. Contracts see the values.
#[derive(Drop)]
pub struct Statuses {
    values: Vec<(Text, Value)>,
    // The status of the last round.
    shown: Option<Record>,
    // The status of the round before it.
    spare: Option<Record>,
}

impl Model for Statuses {
    ghost use Rattle.std.specs.Prelude.{map};
    ghost use Rattle.page_meaning.specs.Attributes.{Values};
    ghost use Rattle.pg_value.specs.DatumCode.{entries_code};
    ghost use Rattle.pg_value.specs.Value.{entry_of};
    ghost use Rattle.run_values.specs.Rounds.{IfStatusOf};

    ghost Value = { Values };

    ghost coded = { entries_code };

    ghost view = { λ s. map entry_of s.values.items };

    ghost invariant = { λ s. IfStatusOf (map entry_of s.values.items) s.shown
        × IfStatusOf (map entry_of s.values.items) s.spare };
}

impl Statuses {
    /// The statuses of a loop with these values, none of which was made yet.
    pub fn new(values: Vec<(Text, Value)>) -> Self
        ensures { result ≡ map entry_of values.items }
    {
        Statuses {
            values,
            shown: None,
            spare: None,
        }
    }

    /// The status of a round with this item, as a record. A place or a count past the largest
    /// number is answered as if memory ran out: no contract ties them to the visits of a request,
    /// of which there are far fewer.
    pub fn status(&mut self, mark: &Mark, current: Value) -> Result<Value, AllocError>
        ensures status { IfOk result (λ made. datum_of made ≡ status_record self.old (round_at mark.now)
            (datum_of current)) }
        ensures same { self.new ≡ self.old }
    {
        let status = with_round(self.take_spare()?, mark, current)?;
        let shown = status.copy()?;
        self.spare = self.shown.replace(status);
        Ok(Value::Rec(shown))
    }

    // A status to be set for a round: the spare one, or a new one.
    fn take_spare(&mut self) -> Result<Record, AllocError>
        ensures status { IfOk result (λ status. IsStatusOf self.old status) }
        ensures same { self.new ≡ self.old }
    {
        if let Some(spare) = self.spare.take() {
            return Ok(spare);
        }
        blank(*self.values.allocator(), &self.values)
    }
}

// The status of no round, of which a status of each round can be made.
#[inline(never)]
fn blank(alloc: Global, table: &[(Text, Value)]) -> Result<Record, AllocError>
    ensures { IfOk result (λ made. IsStatusOf (map entry_of table.now) made) }
{
    Record::new(Attrs::new(blank_entries(alloc, table)?))
}

// The entries of the status of no round, in the order of their keys.
fn blank_entries(alloc: Global, table: &[(Text, Value)]) -> Result<Vec<(Text, Value)>, AllocError>
    ensures { IfOk result (λ made. map entry_of made.items ≡ status_entries (map entry_of table.now) no_round null) }
{
    let entries = vec![in alloc;
        given_entry(alloc, "begin", table)?,
        entry(alloc, "count", Value::Int(0))?,
        entry(alloc, "current", Value::Null)?,
        given_entry(alloc, "end", table)?,
        entry(alloc, "first", Value::Bool(false))?,
        entry(alloc, "index", Value::Int(0))?,
        entry(alloc, "last", Value::Bool(false))?,
        given_entry(alloc, "step", table)?,
    ]?;
    Ok(entries)
}

// A value under a name.
fn entry(alloc: Global, name: &str, value: Value) -> Result<(Text, Value), AllocError>
    ensures { IfOk result (λ made. entry_of made ≡ (name.now, datum_of value)) }
{
    Ok((Text::copy_of(alloc, name)?, value))
}

// The value of a name in the table, or null, under it.
fn given_entry(
    alloc: Global,
    name: &str,
    table: &[(Text, Value)],
) -> Result<(Text, Value), AllocError>
    ensures { IfOk result (λ e. entry_of e ≡ (name.now, or_null (value_at name.now (map entry_of table.now)))) }
{
    match value_at(table, name) {
        Some(value) => entry(alloc, name, value.copy()?),
        None => entry(alloc, name, Value::Null),
    }
}

// The status of a round, made of that of another round of the same loop.
fn with_round(mut status: Record, mark: &Mark, current: Value) -> Result<Record, AllocError>
    requires { (vs : Values) × IsStatusOf vs status }
    ensures { IfOk result (λ made. (vs : Values) → IsStatusOf vs status → made
        ≡ status_entries vs (round_at mark.now) (datum_of current)) }
{
    status.set_at(COUNT, number(mark.count)?)?;
    status.set_at(CURRENT, current)?;
    set_truth(&mut status, FIRST, mark.count == 1)?;
    status.set_at(INDEX, number(mark.index)?)?;
    set_truth(&mut status, LAST, mark.is_last)?;
    Ok(status)
}

// Puts a truth value at its place, where another value stands there.
fn set_truth(status: &mut Record, at: usize, holds: bool) -> Result<(), AllocError>
    requires { at < length status.old }
    ensures ok { OnOk result (status.new ≡ with_value_at status.old at (truth holds)) }
    ensures err { OnErr result (status.new ≡ status.old) }
{
    if let Some((_name, value)) = status.at(at)
        && is_truth(value, holds)
    {
        return Ok(());
    }
    status.set_at(at, Value::Bool(holds))
}

// Whether a value is this truth value.
fn is_truth(value: &Value, holds: bool) -> bool
    ensures { result ≡ is_same (datum_of value.now) (truth holds) }
{
    matches!(value, Value::Bool(old) if *old == holds)
}

// A place or a count as a value. One past the largest number is answered as if memory ran out.
fn number(count: u64) -> Result<Value, AllocError>
    ensures { IfOk result (λ made. datum_of made ≡ number (pos count)) }
{
    if count > i64::MAX as u64 {
        return Err(AllocError);
    }
    Ok(Value::Int(count as i64))
}
