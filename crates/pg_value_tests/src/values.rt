use pg_value::{Attrs, PageSettings, Record, RunFault, Text, Value, Values, from_json};
use std::alloc::{AllocError, Global};
use std::fmt::Write;
use std::test::Fail;

// Whether a copy of the value of a JSON text is the value of another.
fn is_copied(alloc: Global, json: &str, other: &str) -> Result<bool, Fail> {
    let value = from_json(alloc, json.as_bytes())?;
    let copy = value.copy()?;
    Ok(copy == from_json(alloc, other.as_bytes())?)
}

// A JSON text, another, and whether they have one value. Of equal keys the last stands.
const VALUES: [(&str, &str, bool); 7] = [
    (
        "{\"b\":[1,\"x\",null],\"a\":1,\"a\":{}}",
        "{\"a\":{},\"b\":[1,\"x\",null]}",
        true,
    ),
    ("{\"b\":[1,\"x\",null],\"a\":1,\"a\":{}}", "null", false),
    ("\"a\"", "\"a\"", true),
    ("\"a\"", "[]", false),
    ("[]", "\"a\"", false),
    ("[]", "{}", false),
    ("{}", "{}", true),
];

#[test]
fn copies_are_equal(rt: HostRuntime) -> Result<(), Fail> {
    for &(json, other, same) in &VALUES {
        assert!(rt; is_copied(rt.alloc(), json, other)? == same);
    }
    Ok(())
}

#[test]
fn items_are_taken_out(rt: HostRuntime) -> Result<(), Fail> {
    let items = Values::new(Vec::new(rt.alloc()))?;
    let copy = items.copy()?;
    let count = copy.into_vec()?.len();
    assert_eq!(rt; (items.is_empty(), count), (true, 0));
    Ok(())
}

// Entries under these keys, numbered from 1.
fn numbered(alloc: Global, keys: &[&str]) -> Result<Vec<(Text, Value)>, AllocError> {
    let mut entries = Vec::new(alloc);
    let mut number: i64 = 0;
    for key in keys {
        number = number.wrapping_add(1);
        entries.push((Text::copy_of(alloc, key)?, Value::Int(number)))?;
    }
    Ok(entries)
}

// Whether these entries are the record of a JSON text.
fn are_record(alloc: Global, entries: Attrs, json: &str) -> Result<bool, Fail> {
    let record = Value::Rec(Record::new(entries)?);
    Ok(record == from_json(alloc, json.as_bytes())?)
}

// Entries under these keys, numbered from 1, that were put one after the other.
fn inserted(alloc: Global, keys: &[&str]) -> Result<Attrs, AllocError> {
    let mut entries = Attrs::empty(alloc);
    let mut number: i64 = 0;
    for key in keys {
        number = number.wrapping_add(1);
        entries.insert(Text::copy_of(alloc, key)?, Value::Int(number))?;
    }
    Ok(entries)
}

// How entries are made: put one after the other, and then some taken out of them or of what they
// were copied from; or all at once, where of equal ones the last stands, or the first.
#[derive(Clone, Copy)]
enum Way {
    Put,
    Taken,
    Copied,
    Last,
    First,
}

// Entries under the keys `b`, `c`, `a` and `b` that are made so.
fn made(alloc: Global, way: Way) -> Result<Attrs, AllocError> {
    let keys = ["b", "c", "a", "b"];
    match way {
        Way::Put => inserted(alloc, &keys),
        Way::Taken => {
            let mut entries = inserted(alloc, &keys)?;
            entries.remove("c");
            entries.remove("d");
            Ok(entries)
        }
        Way::Copied => {
            let mut entries = inserted(alloc, &keys)?;
            let copy = entries.copy()?;
            entries.remove("c");
            Ok(copy)
        }
        Way::Last => Attrs::from_entries(numbered(alloc, &keys)?),
        Way::First => Attrs::from_first_entries(numbered(alloc, &keys)?),
    }
}

#[test]
fn entries_are_made(rt: HostRuntime) -> Result<(), Fail> {
    for &(way, json) in &[
        (Way::Put, "{\"a\":3,\"b\":4,\"c\":2}"),
        (Way::Taken, "{\"a\":3,\"b\":4}"),
        (Way::Copied, "{\"a\":3,\"b\":4,\"c\":2}"),
        (Way::Last, "{\"a\":3,\"b\":4,\"c\":2}"),
        (Way::First, "{\"a\":3,\"b\":1,\"c\":2}"),
    ] {
        let entries = made(rt.alloc(), way)?;
        assert!(rt; are_record(rt.alloc(), entries, json)?);
    }
    Ok(())
}

fn record_of(alloc: Global, keys: &[&str]) -> Result<Record, AllocError> {
    Record::new(Attrs::from_entries(numbered(alloc, keys)?)?)
}

fn put_null(alloc: Global, record: &mut Record, key: &str) -> Result<(), AllocError> {
    record.insert(Text::copy_of(alloc, key)?, Value::Null)
}

fn change(alloc: Global, record: &mut Record) -> Result<(), AllocError> {
    put_null(alloc, record, "b")?;
    put_null(alloc, record, "a")
}

// A record of a number under `a`, and behind it what became of it: null under `a` and `b`.
fn changed(alloc: Global) -> Result<(Record, Record), AllocError> {
    let mut record = record_of(alloc, &["a"])?;
    let copy = record.copy()?;
    change(alloc, &mut record)?;
    Ok((copy, record))
}

#[test]
fn a_shared_record_is_changed_alone(rt: HostRuntime) -> Result<(), Fail> {
    let (copy, record) = changed(rt.alloc())?;
    let before = (copy.len(), copy.weight());
    let behind = (record.len(), record.weight(), record.depth());
    assert!(rt; before == (1, 49) && behind == (2, 66, 1));
    Ok(())
}

// How many entries a record has, and one that shares them.
fn counts(record: Record) -> Result<(usize, usize), AllocError> {
    let shared = record.copy()?;
    let count = record.into_attrs()?.len();
    Ok((count, shared.into_attrs()?.len()))
}

#[test]
fn the_entries_of_a_shared_record_are_taken_out(rt: HostRuntime) -> Result<(), Fail> {
    let record = record_of(rt.alloc(), &["a", "b"])?;
    assert_eq!(rt; counts(record)?, (2, 2));
    Ok(())
}

fn scattered_key(alloc: Global, number: u32) -> Result<Text, AllocError> {
    let scattered = number.wrapping_mul(2_654_435_761) % 25_000;
    let mut key = String::new(alloc);
    write!(key, "{scattered}")?;
    Text::new(key)
}

// How many entries are left of 30,000, as a large form may have them.
fn count_of_many(alloc: Global) -> Result<usize, AllocError> {
    let mut entries = Vec::new(alloc);
    for number in 0..30_000u32 {
        entries.push((scattered_key(alloc, number)?, Value::Null))?;
    }
    Ok(Attrs::from_first_entries(entries)?.len())
}

#[test]
fn many_names_are_a_record_soon(rt: HostRuntime) -> Result<(), Fail> {
    assert!(rt; count_of_many(rt.alloc())? > 10_000);
    Ok(())
}

// Puts an entry into a record and keeps a copy of it without the entry, as a page does, or takes
// one out.
fn set(alloc: Global, record: &mut Record, number: u32) -> Result<(), AllocError> {
    let _before = record.copy()?;
    let key = scattered_key(alloc, number)?;
    if number % 3 == 2 {
        record.remove(scattered_key(alloc, number / 3)?.as_str())?;
    }
    record.insert(key, Value::Int(i64::from(number)))
}

// The same in a list that nobody shares.
fn set_alone(alloc: Global, entries: &mut Attrs, number: u32) -> Result<(), AllocError> {
    let key = scattered_key(alloc, number)?;
    if number % 3 == 2 {
        entries.remove(scattered_key(alloc, number / 3)?.as_str());
    }
    entries.insert(key, Value::Int(i64::from(number)))
}

// A record of many entries, and one that was put together of them at once.
fn many_entries(alloc: Global) -> Result<(Record, Record), AllocError> {
    let mut record = record_of(alloc, &[])?;
    let mut entries = Attrs::empty(alloc);
    for number in 0..1_000 {
        set(alloc, &mut record, number)?;
        set_alone(alloc, &mut entries, number)?;
    }
    Ok((record, Record::new(entries)?))
}

#[test]
fn many_entries_are_kept_as_few_are(rt: HostRuntime) -> Result<(), Fail> {
    let (many, few) = many_entries(rt.alloc())?;
    let measures = (many.len(), many.weight(), many.depth());
    let are_measured = measures == (few.len(), few.weight(), few.depth());
    let listed = Value::Rec(Record::new(many.copy()?.into_attrs()?)?);
    assert!(rt; are_measured && listed == Value::Rec(few) && listed == Value::Rec(many));
    Ok(())
}

#[test]
fn faults_have_numbers_and_names(rt: HostRuntime) {
    for &(fault, number, name) in &[
        (RunFault::ZeroDivisor, 3, "ZeroDivisor"),
        (RunFault::AppTooMuch, 22, "AppTooMuch"),
    ] {
        assert_eq!(rt; (fault.number(), fault.name()), (number, name));
    }
}

#[test]
fn settings_are_copied(rt: HostRuntime) -> Result<(), Fail> {
    let settings = PageSettings {
        session: true,
        buffer: Some(8_192),
        auto_flush: true,
        error_page: Some(Text::copy_of(rt.alloc(), "/error.jsp")?),
        content_type: Text::copy_of(rt.alloc(), "text/html;charset=UTF-8")?,
        el: true,
        hash_is_text: false,
        trim: false,
        not_found_is_fault: false,
    };
    let copy = settings.copy()?;
    assert_eq!(rt; copy.content_type.as_str(), "text/html;charset=UTF-8");
    Ok(())
}
