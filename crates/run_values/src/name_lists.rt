ghost use Rattle.std.specs.Prelude.{◌≡◌, ◌≤◌, ◌∷◌, ◌++◌, length, map, option_map, IfOk};
ghost use Rattle.std.specs.Cmp.Lexicographic.{slice_cmp};
ghost use Rattle.std.specs.List.Sorted.{IsStableBy};
ghost use Rattle.std.specs.Ordering.{is_lt, nat_cmp};
ghost use Rattle.page_meaning.specs.Request.{items_under};
ghost use Rattle.pg_value.specs.Datum.{items_of, list};
ghost use Rattle.pg_value.specs.Value.{datum_of, entry_of};
ghost use Rattle.run_values.specs.NameLists.{IsSplitByName, first_named, lists_by_name};

use pg_text::Text;
use pg_value::{Attrs, Value, Values};
use std::alloc::{AllocError, Global};
use std::cmp::Ordering;

/// Each name with the list of its values, in their order: by one stable sort, and one walk over the
/// sorted entries.
pub fn lists_by_name(alloc: Global, entries: Vec<(Text, Value)>) -> Result<Attrs, AllocError>
    ensures { IfOk result (λ lists. lists ≡ lists_by_name (map entry_of entries.items)) }
{
    let sorted = by_name(entries)?;
    let mut lists = Attrs::empty(alloc);
    let mut rest = sorted.as_slice();
    while let [(name, value), others @ ..] = rest {
        let (more, behind) = split_by_name(name.as_str(), others);
        let items = items_in(alloc, lists.get(name.as_str()))?;
        let values = list_with(items, value, more)?;
        lists.insert(name.copy()?, values)?;
        rest = behind;
    }
    Ok(lists)
}

// The entries by rising names, where those of one name stay in their order.
fn by_name(mut entries: Vec<(Text, Value)>) -> Result<Vec<(Text, Value)>, AllocError>
    ensures { IfOk result (λ sorted. IsStableBy (λ a b. is_lt (slice_cmp nat_cmp a.0 b.0)) entries.items
        sorted.items) }
{
    entries.sort_by(|a, b| order(a, b.0.as_str()))?;
    Ok(entries)
}

// How the name of an entry stands to this one.
fn order(entry: &(Text, Value), name: &str) -> Ordering
    ensures { result ≡ slice_cmp nat_cmp entry.now.0 name.now }
{
    entry.0.as_str().cmp(&name)
}

// How many of the first entries have this name.
fn named(name: &str, entries: &[(Text, Value)]) -> usize
    ensures value { result ≡ first_named name.now (map entry_of entries.now) }
    ensures within { result ≤ length entries.now }
{
    for (index, entry) in entries.iter().enumerate() {
        if entry.0.as_str() != name {
            return index;
        }
    }
    entries.len()
}

// The first entries that have this name, and those behind them.
fn split_by_name<'a>(
    name: &str,
    entries: &'a [(Text, Value)],
) -> (&'a [(Text, Value)], &'a [(Text, Value)])
    ensures split { IsSplitByName name.now result.0.now result.1.now entries.now }
    ensures behind { length result.1.now ≤ length entries.now }
{
    let count = named(name, entries);
    entries.split_at(count)
}

// Copies of the items of a list, where there is one.
fn items_in(alloc: Global, list: Option<&Value>) -> Result<Vec<Value>, AllocError>
    ensures { IfOk result (λ items. items_of (map datum_of items.items)
        ≡ items_under (option_map (λ value. datum_of value.now) list.entry)) }
{
    let mut items = Vec::new(alloc);
    if let Some(Value::List(list)) = list {
        for item in list.as_slice() {
            items.push(item.copy()?)?;
        }
    }
    Ok(items)
}

// The list of these items, with a value and those of more entries behind them.
fn list_with(items: Vec<Value>, value: &Value, more: &[(Text, Value)]) -> Result<Value, AllocError>
    ensures { IfOk result (λ made. datum_of made
        ≡ list (items_of (map datum_of items.items ++ datum_of value.now ∷ map (λ e. datum_of e.1) more.now))) }
{
    let mut items = items;
    items.push(value.copy()?)?;
    for (_, value) in more {
        items.push(value.copy()?)?;
    }
    Ok(Value::List(Values::new(items)?))
}
