use pg_text::{
    BadPath, Bytes, Failure, Listed, PageFault, Place, Text, TranslationFault, decimal, escape_xml,
    is_plain_xml, push_decimal, resolve, whole_number,
};
use std::alloc::{AllocError, Global};
use std::test::Fail;

// A number, and another one behind it.
fn two_numbers(alloc: Global) -> Result<String, AllocError> {
    let mut written = decimal(alloc, i64::MIN)?;
    push_decimal(&mut written, 10)?;
    Ok(written)
}

#[test]
fn a_number_is_written(rt: HostRuntime) -> Result<(), Fail> {
    assert!(rt; two_numbers(rt.alloc())?.as_str() == "-922337203685477580810");
    Ok(())
}

const NUMBERS: [(&str, Option<u64>); 7] = [
    ("0", Some(0)),
    ("01", Some(1)),
    ("999999999999999999", Some(999_999_999_999_999_999)),
    ("0000000000000000001", None),
    ("", None),
    ("+5", None),
    ("1 ", None),
];

#[test]
fn numbers_are_read(rt: HostRuntime) {
    for &(text, number) in &NUMBERS {
        assert!(rt; whole_number(text.as_bytes()) == number);
    }
}

const BYTES: [u8; 2] = [1, 2];

fn copied_bytes(alloc: Global) -> Result<Vec<u8>, AllocError> {
    Ok(Bytes::copy_of(alloc, &BYTES)?.copy()?.into_vec())
}

#[test]
fn a_copy_has_the_same_bytes(rt: HostRuntime) -> Result<(), Fail> {
    assert!(rt; copied_bytes(rt.alloc())?.as_slice() == BYTES.as_slice());
    Ok(())
}

fn fault(alloc: Global) -> Result<PageFault, Failure<BadPath>> {
    Ok(PageFault {
        fault: TranslationFault::ElSyntax,
        place: Place {
            file: resolve(alloc, None, "/a.jsp")?,
            byte: 6,
            line: 1,
            column: 7,
        },
    })
}

fn is_told(fault: &PageFault) -> bool {
    fault.place.file.as_str() == "/a.jsp"
        && fault.fault.number() == 15
        && fault.fault.name() == "ElSyntax"
}

// Whether that is told by a copy of the fault.
fn is_copied(fault: &PageFault) -> Result<bool, AllocError> {
    Ok(is_told(&fault.copy()?))
}

#[test]
fn a_copy_tells_the_same_fault(rt: HostRuntime) -> Result<(), Fail> {
    assert!(rt; is_copied(&fault(rt.alloc())?) == Ok(true));
    Ok(())
}

// A text to which these are added.
fn with(mut text: Text, more: &[&str]) -> Result<Text, AllocError> {
    for piece in more {
        text.push_str(piece)?;
    }
    Ok(text)
}

fn tea(alloc: Global) -> Result<Text, AllocError> {
    Text::new(String::from_str(alloc, "Tea")?)
}

// The copy of a text to which something is added, and the text.
fn shared(alloc: Global) -> Result<(Text, Text), AllocError> {
    let text = tea(alloc)?;
    let copy = text.copy()?;
    Ok((copy, with(text, &["pot"])?))
}

#[test]
fn a_shared_text_is_changed_alone(rt: HostRuntime) -> Result<(), Fail> {
    let (copy, text) = shared(rt.alloc())?;
    assert!(rt; copy.as_str() == "Tea" && text.as_str() == "Teapot");
    Ok(())
}

// A text taken out while another shares it, and while none does.
fn taken_out(text: Text) -> Result<(String, String), AllocError> {
    let other = text.copy()?;
    Ok((text.into_string()?, other.into_string()?))
}

#[test]
fn a_text_is_taken_out(rt: HostRuntime) -> Result<(), Fail> {
    let (text, other) = taken_out(with(tea(rt.alloc())?, &["pot", "s"])?)?;
    assert!(rt; text.as_str() == "Teapots" && other.as_str() == "Teapots");
    Ok(())
}

const ESCAPED: [(&str, &str); 4] = [
    ("<'\"&>", "&lt;&#039;&#034;&amp;&gt;"),
    ("", ""),
    ("J\u{e4}m 2 \u{20ac}", "J\u{e4}m 2 \u{20ac}"),
    (
        "\u{e4} < \u{20ac} && b",
        "\u{e4} &lt; \u{20ac} &amp;&amp; b",
    ),
];

// Whether the text is escaped so, and is plain where that changes nothing.
fn is_escaped(alloc: Global, text: &str, written: &str) -> Result<bool, AllocError> {
    let is_same = text == written;
    Ok(escape_xml(alloc, text)?.as_str() == written && is_plain_xml(text) == is_same)
}

#[test]
fn five_characters_are_escaped(rt: HostRuntime) -> Result<(), Fail> {
    for &(text, written) in &ESCAPED {
        assert!(rt; is_escaped(rt.alloc(), text, written)?);
    }
    Ok(())
}

fn add(alloc: Global, listed: &mut Listed<Text>, text: &str) -> Result<(), AllocError> {
    listed.push(Text::copy_of(alloc, text)?)
}

fn texts_of(alloc: Global, texts: &[&str]) -> Result<Listed<Text>, AllocError> {
    let mut listed = Listed::empty(alloc);
    for text in texts {
        add(alloc, &mut listed, text)?;
    }
    Ok(listed)
}

// Whether these are two texts of one letter each.
fn are_two(texts: &Listed<Text>) -> bool {
    for text in texts.as_slice() {
        if text.len() != 1 {
            return false;
        }
    }
    texts.len() == 2 && !texts.is_empty()
}

// Whether the copy of a list has these.
fn are_copied(texts: &Listed<Text>) -> Result<bool, AllocError> {
    Ok(are_two(&texts.copy()?))
}

// How many items of the list are taken out, once they were taken out and made a list again.
fn taken_twice(texts: Listed<Text>) -> usize {
    Listed::new(texts.into_vec()).into_vec().len()
}

const LETTERS: [&str; 2] = ["b", "a"];

#[test]
fn a_list_is_its_items(rt: HostRuntime) -> Result<(), Fail> {
    let texts = texts_of(rt.alloc(), &LETTERS)?;
    let has_copy = are_copied(&texts) == Ok(true);
    let count = taken_twice(texts);
    assert!(rt; has_copy && count == 2);
    Ok(())
}
