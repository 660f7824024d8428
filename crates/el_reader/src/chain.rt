ghost use Rattle.std.specs.Prelude.{◌≡◌, ◌≤◌, ◌<◌, false, IfOk};
ghost use Rattle.std.specs.List.{All};
ghost use Rattle.el_reader.specs.Chain.{chained, leans, right_of};
ghost use Rattle.el_reader.specs.El.{tree_of};
ghost use Rattle.el_reader.specs.declared.el.El.{size-El};

use crate::el::El;
use pg_value::BinOp;
use std::alloc::{AllocError, Global};

/// What a chain goes on with.
#[derive(Clone, Copy)]
pub enum Link<'a> {
    /// An operator, and what stands on its right.
    Operation(BinOp, &'a El),
    /// The key of a property, in brackets or behind a point.
    Key(&'a El),
}

/// An expression along its left side: `a + b[c] - d` is `a`, `+ b[c]` and `- d`, and `a[b].c` is
/// `a`, `[b]` and `["c"]`.
#[derive(Drop)]
pub struct Chain<'a> {
    pub first: &'a El,
    pub links: Vec<Link<'a>>,
}

impl<'a> Chain<'a> {
    /// The chain that an expression is. It is found in a loop, and so may be gone along in one: a
    /// sum of 20,000 terms isn't nested at all, and is a tree 20,000 deep. The parts of a chain are
    /// less deep than the whole, so a recursion on them ends.
    pub fn of(alloc: Global, el: &'a El) -> Result<Self, AllocError>
        ensures whole { IfOk result (λ chain. chained (tree_of chain.first.now) chain.links.items ≡ tree_of el.now) }
        ensures first { IfOk result (λ chain. leans (tree_of chain.first.now) ≡ false) }
        ensures first_depth { IfOk result (λ chain. size-El chain.first.now ≤ size-El el.now) }
        ensures link_depths { IfOk result (λ chain. All (λ link. size-El (right_of link) < size-El el.now)
            chain.links.items) }
    {
        let mut first = el;
        let mut links = Vec::new(alloc);
        loop {
            match first {
                El::Binary(op, left, right) => {
                    links.push(Link::Operation(*op, right))?;
                    first = left;
                }
                El::Index(value, key) => {
                    links.push(Link::Key(key))?;
                    first = value;
                }
                _ => break,
            }
        }
        links.reverse();
        Ok(Chain { first, links })
    }
}
