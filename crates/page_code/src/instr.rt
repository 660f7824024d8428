use crate::bean::Bean;
use crate::call::{CallOut, Leave};
use crate::op::Op;
use crate::operands::{LoopKind, ScopedName};
use crate::shared::Shared;

/// An instruction. A jump names how many cells it passes over, and `LoopNext` how many it goes
/// back.
#[derive(Drop)]
pub enum Instr {
    /// Takes values, leaves one or none, and goes on.
    Op(Op),
    /// Brings the value that has so many values above it to the top.
    Take(usize),
    /// Keeps what is written from here on.
    StartBody,
    /// Pushes what was kept as a text.
    TakeBody,
    Jump(usize),
    /// Pops a truth value, and jumps over so many cells if it is equal to this one.
    JumpIf(bool, usize),
    /// Jumps over so many cells if null is on top, which it then pops.
    JumpNull(usize),
    /// Jumps where the variable stands; else it is set to the bean.
    Ensure {
        variable: ScopedName,
        bean: Shared<Bean>,
        size: usize,
    },
    LoopStart(Shared<LoopKind>),
    /// Begins the next round so many cells before, or ends the innermost loop.
    LoopNext(usize),
    /// Opens a catch. A fault that it takes goes on behind so many cells, with its record pushed
    /// and the catch closed.
    CatchStart(usize),
    CatchEnd,
    CallOut(CallOut),
    Leave(Leave),
}
