use crate::show::show;
use code_expressions::{Evaluation, coerced, expression, kept, parts};
use el_reader::read_el;
use page_code::{Code, Coercion, Shape};
use pg_text::{Place, Text, resolve};
use std::alloc::Global;
use std::test::Fail;
use unit_nodes::UnitPart;

fn place(alloc: Global) -> Result<Place, Fail> {
    Ok(Place {
        file: resolve(alloc, None, "/a.jsp")?,
        byte: 0,
        line: 1,
        column: 1,
    })
}

fn code_of(alloc: Global, text: &str) -> Result<Code, Fail> {
    let el = read_el(alloc, text)?;
    Ok(expression(alloc, &Shape::empty(alloc)?, &place(alloc)?, &el)?)
}

#[test]
fn parts_stand_in_the_order_of_their_evaluation(rt: HostRuntime) -> Result<(), Fail> {
    for &(text, code) in &[
        ("a", "0 Visit 1; 0 Find a"),
        (
            "a + b * 2",
            "0 Visit 2; 0 Find a; 1 Visit 2; 1 Find b; 2 Visit 1; 2 2; 3 Mul; 2 Add",
        ),
        (
            "a.b.c",
            "0 Visit 3; 0 Find a; 1 Visit 1; 1 'b'; 2 Index; 1 Visit 1; 1 'c'; 2 Index",
        ),
        ("-a", "0 Visit 2; 0 Find a; 1 Neg"),
        (
            "[a, 1]",
            "0 Visit 1; 0 Visit 1; 0 Find a; 1 Visit 1; 1 1; 2 MakeList 2",
        ),
        (
            "{'k': a}",
            "0 Visit 1; 0 Visit 1; 0 'k'; 1 Visit 1; 1 Find a; 2 MakeMap 1",
        ),
    ] {
        let cells = code_of(rt.alloc(), text)?;
        assert_eq!(rt; show(rt.alloc(), &cells)?.as_str(), code);
    }
    Ok(())
}

#[test]
fn one_of_two_parts_is_evaluated(rt: HostRuntime) -> Result<(), Fail> {
    for &(text, code) in &[
        (
            "a && b",
            "0 Visit 2; 0 Find a; 1 ToTruth; 1 JumpIf false 4; 0 Visit 1; 0 Find b; 1 ToTruth; 1 Jump 1; 0 false",
        ),
        (
            "a || b",
            "0 Visit 2; 0 Find a; 1 ToTruth; 1 JumpIf false 2; 0 true; 1 Jump 3; 0 Visit 1; 0 Find b; 1 ToTruth",
        ),
        (
            "a ? 1 : 2",
            "0 Visit 2; 0 Find a; 1 ToTruth; 1 JumpIf false 3; 0 Visit 1; 0 1; 1 Jump 2; 0 Visit 1; 0 2",
        ),
    ] {
        let cells = code_of(rt.alloc(), text)?;
        assert_eq!(rt; show(rt.alloc(), &cells)?.as_str(), code);
    }
    Ok(())
}

#[test]
fn objects_are_known_by_their_names(rt: HostRuntime) -> Result<(), Fail> {
    for &(text, code) in &[
        ("param", "0 Visit 1; 0 Object param"),
        ("pageScope", "0 Visit 1; 0 Object Page"),
        (
            "param.x",
            "0 Visit 2; 0 Object param; 1 Visit 1; 1 'x'; 2 Index",
        ),
        ("header.x", "0 Visit 2; 0 Visit 1; 0 'x'; 1 HeaderIndex"),
        (
            "sessionScope[a].b",
            "0 Visit 3; 0 Visit 1; 0 Find a; 1 ScopeIndex Session; 1 Visit 1; 1 'b'; 2 Index",
        ),
        ("header + 1", "0 Visit 2; 0 ?; 1 Visit 1; 1 1; 2 Add"),
    ] {
        let cells = code_of(rt.alloc(), text)?;
        assert_eq!(rt; show(rt.alloc(), &cells)?.as_str(), code);
    }
    Ok(())
}

#[test]
fn a_function_has_as_many_arguments_as_it_takes(rt: HostRuntime) -> Result<(), Fail> {
    for &(text, code) in &[
        ("fn:trim(a)", "0 Visit 1; 0 Visit 1; 0 Find a; 1 Call Trim"),
        (
            "fn:trim(1, 2, 3)",
            "0 Visit 1; 0 Visit 1; 0 1; 1 Visit 1; 1 2; 2 Visit 1; 2 3; 3 Pop; 2 Pop; 1 Call Trim",
        ),
        (
            "fn:join(1)",
            "0 Visit 1; 0 Visit 1; 0 1; 1 null; 2 Call Join",
        ),
        ("fn:none(a)", "0 Visit 1; 0 null"),
    ] {
        let cells = code_of(rt.alloc(), text)?;
        assert_eq!(rt; show(rt.alloc(), &cells)?.as_str(), code);
    }
    Ok(())
}

#[test]
fn a_sum_of_20_000_terms_is_translated(rt: HostRuntime) -> Result<(), Fail> {
    let sum = "1+".repeat(rt.alloc(), 19_999)?;
    let sum = format!(in rt.alloc(); "{sum}1")?;
    let code = code_of(rt.alloc(), sum.as_str())?;
    assert_eq!(rt; code.len(), 59_999);
    Ok(())
}

// The cells of the value of parts: a text where there is one, and an expression where there is one.
fn value_of(alloc: Global, text: Option<&str>, el: Option<&str>) -> Result<Code, Fail> {
    let mut list = Vec::new(alloc);
    if let Some(text) = text {
        list.push(UnitPart::Text(Text::copy_of(alloc, text)?))?;
    }
    if let Some(el) = el {
        list.push(UnitPart::Expr(read_el(alloc, el)?))?;
    }
    Ok(parts(alloc, &Shape::empty(alloc)?, &place(alloc)?, &list)?)
}

#[test]
fn parts_of_a_value_are_joined(rt: HostRuntime) -> Result<(), Fail> {
    for &(text, el, code) in &[
        (Some("t"), None, "0 't'; 1 Concat 1"),
        (
            Some("t"),
            Some("a"),
            "0 't'; 1 Visit 1; 1 Find a; 2 ToText; 2 Concat 2",
        ),
    ] {
        let cells = value_of(rt.alloc(), text, el)?;
        assert_eq!(rt; show(rt.alloc(), &cells)?.as_str(), code);
    }
    Ok(())
}

// The cells of the value of an expression, coerced to a truth.
fn truth_of(alloc: Global, el: &str) -> Result<Code, Fail> {
    let value = value_of(alloc, None, Some(el))?;
    let ground = Shape::empty(alloc)?;
    let to = Evaluation::To(Coercion::Truth);
    Ok(coerced(alloc, &ground, &place(alloc)?, to, value)?)
}

#[test]
fn a_part_that_stands_alone_is_coerced(rt: HostRuntime) -> Result<(), Fail> {
    let cells = truth_of(rt.alloc(), "a")?;
    assert_eq!(rt;
        show(rt.alloc(), &cells)?.as_str(),
        "0 Visit 1; 0 Find a; 1 ToTruth"
    );
    Ok(())
}

#[test]
fn a_text_that_is_kept_may_be_trimmed(rt: HostRuntime) -> Result<(), Fail> {
    let alloc = rt.alloc();
    let ground = Shape::empty(alloc)?;
    let at = place(alloc)?;
    let part = Code::new(alloc);
    let kept = kept(alloc, &ground, &at, true, part)?;
    assert_eq!(rt; show(alloc, &kept)?.as_str(), "0 ?; 0 ?; 1 Call Trim");
    Ok(())
}
