use crate::show::show;
use el_reader::{Chain, Link, read_el};
use std::alloc::{AllocError, Global};
use std::test::Fail;

// What a text is read as: the tree, or the name of the fault.
fn shown(alloc: Global, text: &str) -> Result<String, AllocError> {
    let mut out = String::new(alloc);
    match read_el(alloc, text) {
        Ok(el) => show(&mut out, &el)?,
        Err(fault) => write!(out, "{fault:?}")?,
    }
    Ok(out)
}

// The parts of a chain that a text is, from the left.
fn shown_chain(alloc: Global, text: &str) -> Result<String, Fail> {
    let mut out = String::new(alloc);
    let el = read_el(alloc, text)?;
    let chain = Chain::of(alloc, &el)?;
    show(&mut out, chain.first)?;
    for link in &chain.links {
        match link {
            Link::Operation(op, right) => {
                write!(out, ", {op:?} ")?;
                show(&mut out, right)?;
            }
            Link::Key(key) => {
                out.push_str(", at ")?;
                show(&mut out, key)?;
            }
        }
    }
    Ok(out)
}

#[test]
fn operators_bind_by_their_levels(rt: HostRuntime) -> Result<(), Fail> {
    for &(text, tree) in &[
        ("1 + 2 += 3", "(Join (Add 1 2) 3)"),
        ("1 += 2 + 3", "(Join 1 (Add 2 3))"),
        ("-7 mod 2", "(Rem (Neg 7) 2)"),
        ("1 - 2 - 3", "(Sub (Sub 1 2) 3)"),
        ("1 - 2*3 % 4", "(Sub 1 (Rem (Mul 2 3) 4))"),
        ("a or b && c == d lt e", "(Or a (And b (Eq c (Lt d e))))"),
        (
            "a<b eq c>=d and e||f",
            "(Or (And (Eq (Lt a b) (Ge c d)) e) f)",
        ),
        ("a += b < c", "(Lt (Join a b) c)"),
        ("not empty x", "(Not (Empty x))"),
        ("!a.b == - -c", "(Eq (Not (at a 'b')) (Neg (Neg c)))"),
        ("a ? b : c ? d : e", "(if a b (if c d e))"),
        ("a ? b ? c : d : e", "(if a (if b c d) e)"),
        ("a || b ? c : d || e", "(if (Or a b) c (Or d e))"),
        ("(1 + 2) * 3", "(Mul (Add 1 2) 3)"),
    ] {
        assert_eq!(rt; shown(rt.alloc(), text)?.as_str(), tree);
    }
    Ok(())
}

#[test]
fn values_calls_and_properties_are_read(rt: HostRuntime) -> Result<(), Fail> {
    for &(text, tree) in &[
        (" 9223372036854775807\t", "9223372036854775807"),
        ("007", "7"),
        ("true", "true"),
        ("null <= falsely", "(Le null falsely)"),
        ("'10' < \"9\"", "(Lt '10' '9')"),
        (r#"'a\'b\\c\"'"#, r#"'a'b\c"'"#),
        ("\"a'b\"", "'a'b'"),
        ("a.b[c]", "(at (at a 'b') c)"),
        ("a['b'].c", "(at (at a 'b') 'c')"),
        ("a [ b ? c : d ]", "(at a (if b c d))"),
        ("[1,'x',null][0]", "(at [ 1 'x' null ] 0)"),
        ("[]", "[ ]"),
        ("{}", "{ }"),
        ("{'b':2,'a':1}.a", "(at { 'b':2 'a':1 } 'a')"),
        ("{a:b ? c : d}", "{ a:(if b c d) }"),
        ("p:n()", "(p:n)"),
        ("p:f(x)", "(p:f x)"),
        ("a ? p:f(x):y", "(if a (p:f x) y)"),
        (
            "fn:join(fn:split('a;;b', ';'), '-')",
            "(fn:join (fn:split 'a;;b' ';') '-')",
        ),
        ("$_1.code", "(at $_1 'code')"),
    ] {
        assert_eq!(rt; shown(rt.alloc(), text)?.as_str(), tree);
    }
    Ok(())
}

#[test]
fn chains_go_along_the_left_side(rt: HostRuntime) -> Result<(), Fail> {
    for &(text, parts) in &[
        ("1", "1"),
        ("a.b[c] - d", "a, at 'b', at c, Sub d"),
        ("a + b*c += d", "a, Add (Mul b c), Join d"),
        ("-a[b]", "(Neg (at a b))"),
        ("(a ? b : c) == [d][0]", "(if a b c), Eq (at [ d ] 0)"),
    ] {
        assert_eq!(rt; shown_chain(rt.alloc(), text)?.as_str(), parts);
    }
    Ok(())
}

#[test]
fn a_long_sum_is_a_chain(rt: HostRuntime) -> Result<(), Fail> {
    let mut sum = String::from_str(rt.alloc(), "1")?;
    for _ in 0..20_000 {
        sum.push_str("+1")?;
    }
    let el = read_el(rt.alloc(), sum.as_str())?;
    let chain = Chain::of(rt.alloc(), &el)?;
    assert_eq!(rt; chain.links.len(), 20_000);
    Ok(())
}
