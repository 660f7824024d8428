ghost use Rattle.std.specs.Prelude.{◌≡◌, ◌+◌, ◌≤◌, ◌<◌, ◌^◌, [], ◌∷◌, length, List, Ok, Some, IfOk};
ghost use Rattle.std.specs.Prelude.{codes, map, option_map, slice_get, MatchOption};
ghost use Rattle.run_values.specs.Rounds.{behind_round, entry_item, items_of};
ghost use Rattle.page_meaning.specs.Rounds.{Round, entry_items, good_begin, good_step, item_at};
ghost use Rattle.page_meaning.specs.Rounds.{item_count, rounds_by, stop_at, token_items};
ghost use Rattle.pg_text.specs.Failure.{AnswersAs};
ghost use Rattle.pg_value.specs.Datum.{entries_of, entry, no_entries, rec, text};
ghost use Rattle.pg_value.specs.Value.{datum_of, entry_of};

use crate::records::{put, record, text_value};
use crate::values::measured;
use pg_text::{Failure, Listed, Text};
use pg_value::{Attrs, Record, RunFault, Value, Values};
use std::alloc::{AllocError, Global};
use std::marker::Model;

/// What the rounds of a loop go over.
#[derive(Drop)]
pub enum Items {
    /// The numbers of the places themselves.
    Numbers,
    Values(Values),
    /// The entries of a record, each as the record of its key and its value.
    Entries(Record),
    Texts(Listed<Text>),
}

/// The numbers of a round: its place, its count from 1, and whether it is the last.
#[derive(Clone, Copy, Debug, PartialEq, Eq)]
pub struct Mark {
    pub index: u64,
    pub count: u64,
    pub is_last: bool,
}

/// The rounds of a loop that are still to come, of which only the next is made. Contracts see the
/// list of them.
#[derive(Drop)]
pub struct Rounds {
    items: Items,
    at: u64,
    step: u64,
    stop: u64,
    count: u64,
}

impl Model for Rounds {
    ghost use Rattle.std.specs.Prelude.{◌+◌, ◌≤◌, ◌<◌, ◌^◌, List};
    ghost use Rattle.run_values.specs.RoundCode.{rounds_code};
    ghost use Rattle.run_values.specs.Rounds.{items_of, stop_limit};
    ghost use Rattle.page_meaning.specs.Rounds.{Round, item_at, rounds_below, rounds_from};

    ghost Value = { List Round };

    ghost coded = { rounds_code };

    ghost view = { λ r. rounds_from (item_at (items_of r.items)) r.step r.count
        (rounds_below r.at r.step r.stop) r.at };

    ghost invariant = { λ r. (0 < r.step) × (r.step ≤ 2 ^ 63) × (r.stop ≤ stop_limit r.items)
        × (r.count ≤ r.at + 1) };
}

impl Items {
    // How many there are, where there are items.
    fn count(&self) -> Option<u64>
        ensures { result ≡ item_count (items_of self.now) }
    {
        match self {
            Items::Numbers => None,
            Items::Values(values) => Some(values.len() as u64),
            Items::Entries(record) => Some(entry_count(record)),
            Items::Texts(texts) => Some(text_count(texts)),
        }
    }
}

// Where the places stop: behind the end, and behind the last item.
fn stop(end: Option<i64>, count: Option<u64>) -> u64
    ensures { result ≡ stop_at end count }
{
    let behind = match end {
        Some(end) if end >= 0 => Some(end as u64 + 1),
        Some(_) => Some(0),
        None => None,
    };
    match (behind, count) {
        (Some(behind), Some(count)) => behind.min(count),
        (Some(behind), None) => behind,
        (None, Some(count)) => count,
        (None, None) => 0,
    }
}

// The item at a place, where there is one.
fn at<T>(items: &[T], place: usize) -> Option<&T>
    ensures { option_map (λ x. x.now) result ≡ slice_get items.now place }
{
    items.get(place)
}

// The value at a place, or null.
fn copy_at(values: &[Value], place: usize) -> Result<Value, AllocError>
    ensures { IfOk result (λ copy. item_at (Some (map Ok (map datum_of values.now))) place ≡ Ok (datum_of copy)) }
{
    match at(values, place) {
        Some(value) => value.copy(),
        None => Ok(Value::Null),
    }
}

// The text at a place as a value, or null.
fn text_at(texts: &Listed<Text>, place: usize) -> Result<Value, AllocError>
    ensures { IfOk result (λ made. item_at (Some (token_items texts.now)) place ≡ Ok (datum_of made)) }
{
    match at(texts.as_slice(), place) {
        Some(text) => text_value(text),
        None => Ok(Value::Null),
    }
}

// The entry at a place as the record of its key and its value, or null.
fn entry_at(alloc: Global, record: &Record, place: usize) -> Result<Value, Failure<RunFault>>
    ensures { AnswersAs datum_of (item_at (Some (entry_items (entries_of record.now))) place) result }
{
    match record.at(place) {
        Some(entry) => entry_value(alloc, entry),
        None => Ok(Value::Null),
    }
}

// An entry as the record of its key and its value.
fn entry_value(alloc: Global, entry: &(Text, Value)) -> Result<Value, Failure<RunFault>>
    ensures { AnswersAs datum_of (entry_item (entry_of entry.now)) result }
{
    measured(pair(alloc, &entry.0, &entry.1)?)
}

// How many entries a record has, as items.
fn entry_count(record: &Record) -> u64
    ensures { result ≡ length (entry_items (entries_of record.now)) }
{
    record.len() as u64
}

// How many texts there are, as items.
fn text_count(texts: &Listed<Text>) -> u64
    ensures { result ≡ length (token_items texts.now) }
{
    texts.len() as u64
}

// The record of a key and a value.
fn pair(alloc: Global, key: &Text, value: &Value) -> Result<Value, AllocError>
    ensures { IfOk result (λ made. datum_of made
        ≡ rec (entry (codes "key") (text key.now) (entry (codes "value") (datum_of value.now) no_entries))) }
{
    let mut entries = Attrs::empty(alloc);
    put(alloc, &mut entries, "key", text_value(key)?)?;
    put(alloc, &mut entries, "value", value.copy()?)?;
    record(entries)
}

impl Rounds {
    /// The rounds over these items, or over the numbers: from `begin`, `step` apart, up to `end`;
    /// X8 of a begin below 0 or a step below 1.
    pub fn new(
        items: Items,
        begin: Option<i64>,
        end: Option<i64>,
        step: Option<i64>,
    ) -> Result<Self, RunFault>
        ensures { result ≡ rounds_by (items_of items) end (good_begin begin) (good_step step) }
    {
        let at = begin.unwrap_or(0);
        let step = step.unwrap_or(1);
        if at < 0 || step < 1 {
            return Err(RunFault::BadLoop);
        }
        let stop = stop(end, items.count());
        Ok(Rounds {
            items,
            at: at as u64,
            step: step as u64,
            stop,
            count: 1,
        })
    }

    /// The numbers of the next round, where there is one.
    pub fn next(&self) -> Option<Mark>
        ensures { MatchOption result (self.now ≡ []) (λ mark. (r : Round) × (rest : List Round) × (self.now
            ≡ r ∷ rest) × (r.index ≡ mark.index) × (r.count ≡ mark.count) × (r.is_last ≡ mark.is_last)) }
    {
        if self.at >= self.stop {
            return None;
        }
        Some(Mark {
            index: self.at,
            count: self.count,
            is_last: self.stop - self.at <= self.step,
        })
    }

    /// The item of the next round, null behind the last: X20.
    pub fn item(&self, alloc: Global) -> Result<Value, Failure<RunFault>>
        ensures { (r : Round) (rest : List Round) → self.now ≡ r ∷ rest → AnswersAs datum_of r.item result }
    {
        if self.at >= self.stop {
            return Ok(Value::Null);
        }
        let at = self.at as usize;
        match &self.items {
            Items::Numbers => Ok(Value::Int(self.at as i64)),
            Items::Values(values) => Ok(copy_at(values.as_slice(), at)?),
            Items::Entries(record) => entry_at(alloc, record, at),
            Items::Texts(texts) => Ok(text_at(texts, at)?),
        }
    }

    /// Leaves the next round behind; behind the last one nothing changes.
    pub fn advance(&mut self)
        ensures { self.new ≡ behind_round self.old }
    {
        if self.at < self.stop {
            self.at = self.at.saturating_add(self.step);
            self.count = self.count.saturating_add(1);
        }
    }
}
