use el_reader::{ElFault, Failure, one_expression, read_el};
use std::alloc::{AllocError, Global};
use std::test::Fail;

// A text behind so many copies of one, and before so many of another.
fn nested(
    alloc: Global,
    times: usize,
    before: &str,
    text: &str,
    behind: &str,
) -> Result<String, AllocError> {
    let mut out = String::new(alloc);
    for _ in 0..times {
        out.push_str(before)?;
    }
    out.push_str(text)?;
    for _ in 0..times {
        out.push_str(behind)?;
    }
    Ok(out)
}

// The fault of a text, or None where it is an expression.
fn fault_of(alloc: Global, text: &str) -> Option<Failure<ElFault>> {
    read_el(alloc, text).err()
}

// Whether a text has this fault, or is an expression where there is none.
fn has_fault(alloc: Global, text: &str, fault: Option<ElFault>) -> bool {
    fault_of(alloc, text) == fault.map(Failure::Fault)
}

#[test]
fn faults_have_the_numbers_of_a_page(rt: HostRuntime) {
    for &(fault, number) in &[
        (ElFault::Syntax, 15),
        (ElFault::Decimal, 18),
        (ElFault::LeftOut, 19),
        (ElFault::TooLarge, 20),
    ] {
        assert_eq!(rt; fault.translation_fault().number(), number);
    }
}

#[test]
fn texts_that_are_no_expressions_are_refused(rt: HostRuntime) {
    for &text in &[
        "",
        " ",
        "a b",
        "1a",
        "1.5x",
        "1e3e",
        "'\\q'",
        "'a",
        "\"a'",
        "#",
        "a & b",
        "a | b",
        "(",
        "()",
        "a)",
        "a +",
        "* a",
        "a ? b",
        "a : b",
        "a.",
        "a.empty",
        "a['b'",
        "[1,]",
        "[,1]",
        "{a}",
        "{a:1,}",
        "p:f(",
        "p:f(,)",
        "p:true(1)",
        "a ? b : c(1)",
        "a[]",
        "1 2",
        "9223372036854775808",
        "-9223372036854775808",
        "1.5 @",
        "f(1) '",
    ] {
        assert_eq!(rt;
            fault_of(rt.alloc(), text),
            Some(Failure::Fault(ElFault::Syntax))
        );
    }
}

#[test]
fn what_the_language_leaves_out_is_refused(rt: HostRuntime) {
    for &(text, fault) in &[
        ("1.5", ElFault::Decimal),
        (".5", ElFault::Decimal),
        ("1e3", ElFault::Decimal),
        ("1.", ElFault::Decimal),
        ("1.E-3", ElFault::Decimal),
        ("1 / 2", ElFault::Decimal),
        ("1/2", ElFault::Decimal),
        ("1 div 2", ElFault::Decimal),
        ("1..2", ElFault::Decimal),
        ("a.5", ElFault::Decimal),
        ("f(1.5) = a", ElFault::Decimal),
        ("(1.5", ElFault::Decimal),
        ("a = 1", ElFault::LeftOut),
        ("x -> 1", ElFault::LeftOut),
        ("a; b", ElFault::LeftOut),
        ("a instanceof b", ElFault::LeftOut),
        ("f(1)", ElFault::LeftOut),
        ("a.b(1)", ElFault::LeftOut),
        ("x ? 'a' : f(1)", ElFault::LeftOut),
        ("a = (", ElFault::LeftOut),
        ("f(", ElFault::LeftOut),
    ] {
        assert_eq!(rt; fault_of(rt.alloc(), text), Some(Failure::Fault(fault)));
    }
}

// So many copies of a text, a text between, as many copies of another, and the fault of all
// together.
const NESTED: [(usize, &str, &str, &str, Option<ElFault>); 23] = [
    (64, "(", "a", ")", None),
    (65, "(", "a", ")", Some(ElFault::TooLarge)),
    (64, "-", "a", "", None),
    (65, "-", "a", "", Some(ElFault::TooLarge)),
    (64, "[", "a", "]", None),
    (65, "[", "a", "]", Some(ElFault::TooLarge)),
    (64, "{a:", "a", "}", None),
    (65, "{a:", "a", "}", Some(ElFault::TooLarge)),
    (64, "p:f(", "a", ")", None),
    (65, "p:f(", "a", ")", Some(ElFault::TooLarge)),
    (64, "a[", "a", "]", None),
    (65, "a[", "a", "]", Some(ElFault::TooLarge)),
    (64, "a ? a : ", "a", "", None),
    (65, "a ? a : ", "a", "", Some(ElFault::TooLarge)),
    (64, "a ? ", "a", " : a", None),
    (65, "a ? ", "a", " : a", Some(ElFault::TooLarge)),
    (20_000, "1+", "1", "", None),
    (20_000, "", "a", ".b", None),
    (20_000, "", "a", "[0]", None),
    (20_000, "(", "a", ")", Some(ElFault::TooLarge)),
    (20_000, "not ", "a", "", Some(ElFault::TooLarge)),
    (20_000, "(", "a", "", Some(ElFault::Syntax)),
    (100, "(", "1.5", "", Some(ElFault::Decimal)),
];

#[test]
fn parts_are_nested_64_deep_at_most(rt: HostRuntime) -> Result<(), Fail> {
    for &(times, before, text, behind, fault) in &NESTED {
        let expression = nested(rt.alloc(), times, before, text, behind)?;
        assert!(rt; has_fault(rt.alloc(), expression.as_str(), fault));
    }
    one_expression();
    Ok(())
}

// The text in so many parentheses, between two others.
fn grouped(alloc: Global, times: usize, before: &str, behind: &str) -> Result<String, AllocError> {
    let group = nested(alloc, times, "(", "a", ")")?;
    format!(in alloc; "{before}{group}{behind}")
}

// A name in so many parentheses, between two texts, and the fault of all together.
const GROUPED: [(usize, &str, &str, Option<ElFault>); 6] = [
    (64, "", " ? b : c", None),
    (65, "", " ? b : c", Some(ElFault::TooLarge)),
    (63, "a ? ", " : c", None),
    (64, "a ? ", " : c", Some(ElFault::TooLarge)),
    (63, "a ? b : ", "", None),
    (64, "a ? b : ", "", Some(ElFault::TooLarge)),
];

#[test]
fn only_the_sides_of_a_choice_are_nested_in_it(rt: HostRuntime) -> Result<(), Fail> {
    for &(times, before, behind, fault) in &GROUPED {
        let expression = grouped(rt.alloc(), times, before, behind)?;
        assert!(rt; has_fault(rt.alloc(), expression.as_str(), fault));
    }
    Ok(())
}
