use edges::MemSource;
use journal_reader::{Part, Unread, next_journal};
use pg_text::{Failure, Listed, Names, Text};
use pg_value::{Attrs, Value, depth};
use std::alloc::Global;
use std::test::Fail;

// What reading such a part of these bytes answers, but for the part, and how much may be read
// behind it.
fn read<T: Part + Drop>(
    alloc: Global,
    bytes: &[u8],
) -> Result<(Option<Failure<Unread>>, u64), Fail> {
    let bytes = Vec::from_slice(alloc, bytes)?;
    let mut source = MemSource::new(bytes, 7, Vec::new(alloc));
    let mut room = 1_000;
    let failure = T::read(alloc, &mut source, &mut room).err();
    Ok((failure, room))
}

// A part that begins with how much it has.
#[derive(Clone, Copy)]
enum Sort {
    List,
    Text,
    Numbers,
    Names,
    Attributes,
}

// The same of a part of this sort.
fn read_sort(
    alloc: Global,
    sort: Sort,
    bytes: &[u8],
) -> Result<(Option<Failure<Unread>>, u64), Fail> {
    match sort {
        Sort::List => read::<Value>(alloc, bytes),
        Sort::Text => read::<Text>(alloc, bytes),
        Sort::Numbers => read::<Listed<u64>>(alloc, bytes),
        Sort::Names => read::<Names>(alloc, bytes),
        Sort::Attributes => read::<Attrs>(alloc, bytes),
    }
}

const NOT_THERE: Failure<Unread> = Failure::Fault(Unread::NotThere);

const ALL_ONES: [u8; 9] = [4, 255, 255, 255, 255, 255, 255, 255, 255];

const NONE: [u8; 8] = [0; 8];

#[test]
fn a_list_of_more_items_than_there_are_is_not_there(rt: HostRuntime) -> Result<(), Fail> {
    for &(sort, bytes, ref answer) in &[
        (Sort::List, &ALL_ONES[..], (Some(NOT_THERE), 991)),
        (Sort::Text, &ALL_ONES[1..], (Some(NOT_THERE), 992)),
        (Sort::Numbers, &ALL_ONES[1..], (Some(NOT_THERE), 992)),
        (Sort::Names, &NONE[..], (None, 992)),
        (Sort::Attributes, &NONE[..], (None, 992)),
    ] {
        assert!(rt; read_sort(rt.alloc(), sort, bytes)? == *answer);
    }
    Ok(())
}

// A list of one item, and a record of one entry without a key, each up to what stands in it.
const LIST: [u8; 9] = [4, 0, 0, 0, 0, 0, 0, 0, 1];

const RECORD: [u8; 17] = [5, 0, 0, 0, 0, 0, 0, 0, 1, 0, 0, 0, 0, 0, 0, 0, 0];

#[test]
fn a_value_of_any_depth_is_read(rt: HostRuntime) -> Result<(), Fail> {
    let alloc = rt.alloc();
    for &(levels, begin) in &[
        (0, &LIST[..]),
        (4_096, &LIST[..]),
        (100_000, &LIST[..]),
        (100_000, &RECORD[..]),
    ] {
        let mut bytes = Vec::new(alloc);
        for _ in 0..levels {
            bytes.extend_from_slice(begin)?;
        }
        bytes.push(0)?;
        let mut source = MemSource::new(bytes, 4_096, Vec::new(alloc));
        let mut room = 4_294_967_296;
        let read = Value::read(alloc, &mut source, &mut room);
        assert!(rt; read.is_ok_and(|value| depth(&value) == levels));
    }
    Ok(())
}

// The smallest journal with a talk: no files, one pass, a history of one Roll, and a connection
// without bytes.
const SMALLEST: [u8; 156] = *b"PGJRNL1\n\
    \0\0\0\0\0\0\0\0\0\0\0\0\0\0\0\0\0\0\0\0\0\0\0\0\0\0\0\0\0\0\0\0\
    \0\0\0\0\x80\0\0\0\0\0\0\0\0\0\0\x01\0\0\0\0\0\0\x07\x08\0\0\0\0\0\0\0\0\0\0\0\0\0\0\0\0\
    \0\0\0\0\0\0\0\0\0\0\0\0\0\0\0\0\
    \0\0\0\0\0\0\0\0\0\0\0\0\0\0\0\0\0\0\0\0\0\0\0\0\0\0\0\0\0\0\0\x01\0\x0a\
    \x01\0\0\0\0\0\0\0\0\0\0\0\0\0\0\0\0\0\0\0\0\0\0\0\0\0";

#[test]
fn journals_stand_one_behind_the_other(rt: HostRuntime) -> Result<(), Fail> {
    let alloc = rt.alloc();
    let mut bytes = Vec::from_slice(alloc, &SMALLEST)?;
    bytes.extend_from_slice(&SMALLEST)?;
    let mut source = MemSource::new(bytes, 7, Vec::new(alloc));
    let mut room = 1_000;
    for &(there, left) in &[(true, 844), (true, 688), (false, 688)] {
        let next = next_journal(alloc, &mut source, &mut room);
        let is_right = next.is_ok_and(|found| found.is_some() == there);
        assert!(rt; is_right && room == left);
    }
    Ok(())
}

#[test]
fn what_is_no_journal_is_told(rt: HostRuntime) -> Result<(), Fail> {
    let alloc = rt.alloc();
    for &(count, place, byte, may, ref failure) in &[
        (155, 0, b'P', 156, Some(NOT_THERE)),
        (156, 0, b'Q', 156, Some(NOT_THERE)),
        (156, 6, b'2', 156, Some(NOT_THERE)),
        (156, 54, 1, 156, Some(NOT_THERE)),
        (156, 127, 0, 156, Some(NOT_THERE)),
        (156, 96, 255, 156, Some(NOT_THERE)),
        (156, 104, 255, 156, Some(NOT_THERE)),
        (156, 112, 255, 156, Some(NOT_THERE)),
        (156, 120, 255, 156, Some(NOT_THERE)),
        (156, 131, 255, 156, Some(NOT_THERE)),
        (156, 139, 255, 156, Some(NOT_THERE)),
        (156, 147, 255, 156, Some(NOT_THERE)),
        (156, 129, 11, 156, Some(NOT_THERE)),
        (156, 130, 2, 156, Some(NOT_THERE)),
        (156, 0, b'P', 155, Some(Failure::Fault(Unread::TooLong))),
        (156, 0, b'P', 0, Some(Failure::Fault(Unread::TooLong))),
        (0, 0, b'P', 0, None),
        (156, 155, 1, 156, None),
    ] {
        let mut bytes = Vec::from_slice(alloc, &SMALLEST)?;
        bytes.truncate(count);
        if let Some(changed) = bytes.get_mut(place) {
            *changed = byte;
        }
        let mut source = MemSource::new(bytes, 7, Vec::new(alloc));
        let mut room = may;
        assert!(rt; next_journal(alloc, &mut source, &mut room).err() == *failure);
    }
    Ok(())
}
