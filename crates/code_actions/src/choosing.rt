// The branches of a choice.
ghost use Rattle.std.specs.Prelude.{◌≡◌, ◌+◌, ◌++◌, [], ◌∷◌, false, IfOk, OnOk, codes};
ghost use Rattle.code_actions.specs.Choosing.{before, size_before, when_code};
ghost use Rattle.page_code.specs.Shapes.{cell, up};
ghost use Rattle.page_code.specs.declared.instr.Instr.TheVariants as instr;
ghost use Rattle.code_forms.specs.Codes.{arranged_code};

use code_forms::{arranged, joined};
use page_code::{Code, Instr, Shape};
use pg_text::{Listed, Place, Text};
use std::alloc::{AllocError, Global};

/// A branch with a test: its code as far as its body goes, and its place.
#[derive(Drop)]
pub struct TestedBranch {
    pub code: Code,
    pub place: Place,
}

/// A branch, from the code of its visit and of the values of its attributes, which have these
/// names, and from the code of its body.
pub fn when(
    alloc: Global,
    ground: &Shape,
    place: &Place,
    names: &Listed<Text>,
    values: Code,
    body: Code,
) -> Result<TestedBranch, AllocError>
    ensures { IfOk result (λ made. made ≡ record {
      code = values ++ when_code ground.now place.now names.now
          body;
      place = place.now;
    }) }
{
    let behind = test_and_body(alloc, ground, place, names, body)?;
    Ok(TestedBranch {
        code: joined(values, behind)?,
        place: place.copy()?,
    })
}

// The code of a branch behind the values of its attributes.
fn test_and_body(
    alloc: Global,
    ground: &Shape,
    place: &Place,
    names: &Listed<Text>,
    body: Code,
) -> Result<Code, AllocError>
    ensures { IfOk result (λ code. code ≡ when_code ground.now place.now names.now body) }
{
    joined(test(alloc, ground, place, names, body.len())?, body)
}

// The code of a test, behind the values of the attributes: where it is false, it passes over so
// many cells and the one behind them.
fn test(
    alloc: Global,
    ground: &Shape,
    place: &Place,
    names: &Listed<Text>,
    count: usize,
) -> Result<Code, AllocError>
    ensures { IfOk result (λ code. code ≡ arranged_code ground.now place.now (codes "test" ∷ []) names.now 0
        ++ cell (up 1 ground.now) place.now (instr.JumpIf false (count + 1)) ∷ []) }
{
    let Some(size) = count.checked_add(1) else {
        return Err(AllocError);
    };
    let mut code = arranged(alloc, ground, place, &["test"], names)?;
    code.put(&ground.up(1)?, place, Instr::JumpIf(false, size))?;
    Ok(code)
}

/// The code of a choice: of branches in order the first whose test is true, and where none is, the
/// last part.
pub fn choice(
    alloc: Global,
    ground: &Shape,
    whens: Vec<TestedBranch>,
    last: Code,
) -> Result<Code, AllocError>
    ensures { IfOk result (λ code. code ≡ before ground.now whens.items last) }
{
    let after = ground.up(0)?;
    let mut left = size(&whens, last.len())?;
    let mut code = Code::new(alloc);
    for when in whens {
        left -= when.code.len();
        left -= 1;
        add_branch(&mut code, &after, when, left)?;
    }
    joined(code, last)
}

// Adds a branch, and behind it a jump over so many cells. Where memory runs out, its code may stand
// without the jump.
fn add_branch(
    code: &mut Code,
    after: &Shape,
    branch: TestedBranch,
    over: usize,
) -> Result<(), AllocError>
    ensures { OnOk result (code.new ≡ (code.old ++ branch.code)
        ++ cell after.now branch.place (instr.Jump over) ∷ []) }
{
    let TestedBranch {
        code: tested,
        place,
    } = branch;
    code.join(tested)?;
    code.put(after, &place, Instr::Jump(over))
}

// How many cells these branches have before so many others.
fn size(whens: &[TestedBranch], last: usize) -> Result<usize, AllocError>
    ensures { IfOk result (λ size. size ≡ size_before whens.now last) }
{
    let mut size = last;
    for when in whens {
        size = longer(size, when.code.len())?;
    }
    Ok(size)
}

// So many cells with others and one more.
fn longer(size: usize, more: usize) -> Result<usize, AllocError>
    ensures { IfOk result (λ sum. sum ≡ size + more + 1) }
{
    let Some(sum) = size.checked_add(more) else {
        return Err(AllocError);
    };
    match sum.checked_add(1) {
        Some(sum) => Ok(sum),
        None => Err(AllocError),
    }
}
