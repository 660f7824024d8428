// Expressions, along their left sides.
ghost use Rattle.std.specs.Prelude.{◌≡◌, ◌+◌, ◌++◌, false, map, IfOk};
ghost use Rattle.el_reader.specs.Chain.{leans, linked};
ghost use Rattle.el_reader.specs.El.{pair_of, tree_of};
ghost use Rattle.el_reader.specs.Tree.{pairs_of, trees_of};
ghost use Rattle.code_expressions.specs.Chain.{link_form};
ghost use Rattle.code_forms.specs.Codes.{form_code};
ghost use Rattle.code_lowering.specs.Expressions.{first_visits, pairs_form, tree_form, trees_form};
ghost use Rattle.code_lowering.specs.Expressions.{value_form};

use crate::calls::call;
use crate::names::{entry, name};
use crate::operators::{and_then, choice, literal, made_of, or_else};
use crate::single::visits;
use code_forms::operation;
use el_reader::{BinOp, Chain, El, Link};
use page_code::{Code, Op, Shape};
use pg_text::Place;
use std::alloc::{AllocError, Global};

/// How many visits stand before all else in an expression, which so many others precede.
/// A count that an operation can't hold is answered as if memory ran out.
pub fn first_visits(before: u32, el: &El) -> Result<u32, AllocError>
    ensures { IfOk result (λ count. count ≡ before + first_visits (tree_of el.now)) }
{
    let mut count = before;
    let mut first = el;
    loop {
        count = count.checked_add(1).ok_or(AllocError)?;
        match first {
            El::Index(value, _) => first = value,
            El::Unary(_, part) => first = part,
            El::Binary(_, left, _) => first = left,
            El::Choice(condition, _, _) => first = condition,
            _ => break,
        }
    }
    Ok(count)
}

/// The code of an expression, whose faults stand at a place.
#[cycle(expression)]
pub fn expression(alloc: Global, ground: &Shape, place: &Place, el: &El) -> Result<Code, AllocError>
    ensures { IfOk result (λ code. code ≡ form_code ground.now (tree_form place.now (tree_of el.now))) }
{
    let mut code = visits(alloc, ground, place, first_visits(0, el)?)?;
    code.join(value(alloc, ground, place, el)?)?;
    Ok(code)
}

/// The code of an expression behind its first visits. It goes along the left side in a loop: a long
/// sum is as deep as it is long.
#[cycle(expression)]
pub fn value(alloc: Global, ground: &Shape, place: &Place, el: &El) -> Result<Code, AllocError>
    ensures { IfOk result (λ code. code ≡ form_code ground.now (value_form place.now (tree_of el.now))) }
{
    let chain = Chain::of(alloc, el)?;
    match chain.links.split_first() {
        None => operand(alloc, ground, place, chain.first),
        Some((first, links)) => {
            let mut code = first_link(alloc, ground, place, chain.first, first)?;
            for link in links {
                code.join(next_link(alloc, ground, place, link)?)?;
            }
            Ok(code)
        }
    }
}

// The code of an expression that has no link at its end, behind its first visits.
#[cycle(expression)]
fn operand(alloc: Global, ground: &Shape, place: &Place, el: &El) -> Result<Code, AllocError>
    requires { leans (tree_of el.now) ≡ false }
    ensures { IfOk result (λ code. code ≡ form_code ground.now (value_form place.now (tree_of el.now))) }
{
    match el {
        El::Literal(value) => literal(alloc, ground, place, value),
        El::Name(text) => name(alloc, ground, place, text),
        El::Call {
            prefix: _,
            name,
            args,
        } => {
            let arguments = expressions(alloc, ground, place, args)?;
            call(alloc, ground, place, name.as_str(), args.len(), arguments)
        }
        El::List(items) => {
            let values = expressions(alloc, ground, place, items)?;
            made_of(alloc, ground, place, values, Op::MakeList(items.len()))
        }
        El::Map(pairs) => {
            let values = entries(alloc, ground, place, pairs)?;
            made_of(alloc, ground, place, values, Op::MakeMap(pairs.len()))
        }
        El::Unary(op, part) => {
            let part = value(alloc, ground, place, part)?;
            made_of(alloc, ground, place, part, Op::Unary(*op))
        }
        El::Choice(condition, one, other) => {
            let condition = value(alloc, ground, place, condition)?;
            let one = expression(alloc, ground, place, one)?;
            let other = expression(alloc, ground, place, other)?;
            choice(alloc, ground, place, condition, one, other)
        }
        El::Binary(..) | El::Index(..) => unreachable!(),
    }
}

// The code of a value and the first link behind it. Of some implicit objects an index takes one
// entry alone.
#[cycle(expression)]
fn first_link(
    alloc: Global,
    ground: &Shape,
    place: &Place,
    value: &El,
    link: &Link,
) -> Result<Code, AllocError>
    requires { leans (tree_of value.now) ≡ false }
    ensures { IfOk result (λ code. code ≡ form_code ground.now
        (value_form place.now (linked (tree_of value.now) link.now))) }
{
    match link {
        Link::Key(key) => match entry(alloc, ground, place, value)? {
            Some(entry) => {
                let mut code = expression(alloc, ground, place, key)?;
                code.join(entry)?;
                Ok(code)
            }
            None => whole_link(alloc, ground, place, value, link),
        },
        Link::Operation(..) => whole_link(alloc, ground, place, value, link),
    }
}

// The code of a value and a link that takes it as a whole.
#[cycle(expression)]
fn whole_link(
    alloc: Global,
    ground: &Shape,
    place: &Place,
    value: &El,
    link: &Link,
) -> Result<Code, AllocError>
    requires { leans (tree_of value.now) ≡ false }
    ensures { IfOk result (λ code. code ≡ form_code ground.now (value_form place.now (tree_of value.now))
        ++ form_code ground.now (link_form place.now link.now)) }
{
    let mut code = operand(alloc, ground, place, value)?;
    code.join(next_link(alloc, ground, place, link)?)?;
    Ok(code)
}

// The code of a link behind a value.
#[cycle(expression)]
fn next_link(alloc: Global, ground: &Shape, place: &Place, link: &Link) -> Result<Code, AllocError>
    ensures { IfOk result (λ code. code ≡ form_code ground.now (link_form place.now link.now)) }
{
    match link {
        Link::Key(key) => {
            let mut code = expression(alloc, &ground.up(1)?, place, key)?;
            code.join(operation(alloc, ground, place, Op::Index)?)?;
            Ok(code)
        }
        Link::Operation(BinOp::And, right) => {
            let right = expression(alloc, ground, place, right)?;
            and_then(alloc, ground, place, right)
        }
        Link::Operation(BinOp::Or, right) => {
            let right = expression(alloc, ground, place, right)?;
            or_else(alloc, ground, place, right)
        }
        Link::Operation(op, right) => {
            let mut code = expression(alloc, &ground.up(1)?, place, right)?;
            code.join(operation(alloc, ground, place, Op::Binary(*op))?)?;
            Ok(code)
        }
    }
}

// The code of expressions from left to right. Each runs above the values of those before it, so its
// ground, the shape on which a code begins, is one value higher.
#[cycle(expression)]
fn expressions(
    alloc: Global,
    ground: &Shape,
    place: &Place,
    items: &[El],
) -> Result<Code, AllocError>
    ensures { IfOk result (λ code. code ≡ form_code ground.now
        (trees_form place.now (trees_of (map tree_of items.now)))) }
{
    let mut code = Code::new(alloc);
    let mut above = ground.copy()?;
    for item in items {
        code.join(expression(alloc, &above, place, item)?)?;
        above = above.up(1)?;
    }
    Ok(code)
}

// The code of the keys and values of a map, each key before its value.
#[cycle(expression)]
fn entries(
    alloc: Global,
    ground: &Shape,
    place: &Place,
    pairs: &[(El, El)],
) -> Result<Code, AllocError>
    ensures { IfOk result (λ code. code ≡ form_code ground.now
        (pairs_form place.now (pairs_of (map pair_of pairs.now)))) }
{
    let mut code = Code::new(alloc);
    let mut above = ground.copy()?;
    for (key, value) in pairs {
        code.join(expression(alloc, &above, place, key)?)?;
        above = above.up(1)?;
        code.join(expression(alloc, &above, place, value)?)?;
        above = above.up(1)?;
    }
    Ok(code)
}
