// The order of values on the stack.
ghost use Rattle.std.specs.Prelude.{◌≡◌, ◌+◌, [], ◌∷◌, ◌++◌, length, get_or, map, IfOk, IfSome};
ghost use Rattle.std.specs.Prelude.{OnOk, ◌<◌};
ghost use Rattle.page_code.specs.Shapes.{cell, up};
ghost use Rattle.page_code.specs.declared.instr.Instr.TheVariants as instr;
ghost use Rattle.code_forms.specs.Codes.{arranged_code, brought_code, dropped_code};
ghost use Rattle.code_forms.specs.Arranging.{found_with, last_place, left_names, wanted_code};

use crate::cells::one_cell;
use page_code::{Code, Instr, Op, Shape};
use pg_text::{Listed, Place, Text};
use pg_value::Value;
use std::alloc::{AllocError, Global};

/// The code that puts the two topmost values the other way round.
pub fn swapped(alloc: Global, ground: &Shape, place: &Place) -> Result<Code, AllocError>
    ensures { IfOk result (λ code. code ≡ cell (up 2 ground.now) place.now (instr.Take 1) ∷ []) }
{
    one_cell(alloc, &ground.up(2)?, place, Instr::Take(1))
}

/// The code that leaves, of the values with these names, pushed in this order, those that are
/// wanted, in the order in which they are wanted: of one name the last value, and null where there
/// is none.
pub fn arranged(
    alloc: Global,
    ground: &Shape,
    place: &Place,
    wanted: &[&str],
    names: &Listed<Text>,
) -> Result<Code, AllocError>
    ensures { IfOk result (λ code. code ≡ arranged_code ground.now place.now
        (map (λ name. name.now) wanted.now) names.now 0) }
{
    let mut left = names.copy()?.into_vec();
    let mut code = Code::new(alloc);
    for done in 0..wanted.len() {
        let name = text_at(wanted, done);
        put_wanted(&mut code, ground, place, name, &mut left, done)?;
    }
    drop_others(&mut code, ground, place, wanted.len(), left.len())?;
    Ok(code)
}

// One of these texts.
fn text_at<'t>(texts: &[&'t str], at: usize) -> &'t str
    requires { at < length texts.now }
    ensures { result.now ≡ get_or (map (λ text. text.now) texts.now) at [] }
{
    texts[at]
}

// Brings one wanted value above the others and above those that were brought already.
fn put_wanted(
    code: &mut Code,
    ground: &Shape,
    place: &Place,
    wanted: &str,
    names: &mut Vec<Text>,
    done: usize,
) -> Result<(), AllocError>
    ensures code { OnOk result (code.new ≡ code.old ++ wanted_code ground.now place.now names.old.items done
        (last_place wanted.now names.old.items)) }
    ensures left { OnOk result (names.new.items
        ≡ left_names names.old.items (last_place wanted.now names.old.items)) }
{
    let before = ground.up(names.len())?.up(done)?;
    let Some(at) = last_place(names.as_slice(), wanted) else {
        return code.put(&before, place, Instr::Op(Op::Const(Value::Null)));
    };
    let above = names.len() - 1 - at;
    let _ = names.remove(at);
    bring(code, &before, place, above, done)
}

// The last place among these names at which this one stands.
fn last_place(names: &[Text], wanted: &str) -> Option<usize>
    ensures place { result ≡ last_place wanted.now names.now }
    ensures within { IfSome result (λ at. at < length names.now) }
{
    let mut found = None;
    for at in 0..names.len() {
        found = found_with(at, found, wanted == names[at].as_str());
    }
    found
}

// This place where it is the one, else what was found before.
fn found_with(at: usize, found: Option<usize>, is_it: bool) -> Option<usize>
    ensures { result ≡ found_with at found is_it }
{
    if is_it { Some(at) } else { found }
}

// Brings the value to the top that has `others` and `done` above it.
fn bring(
    code: &mut Code,
    before: &Shape,
    place: &Place,
    others: usize,
    done: usize,
) -> Result<(), AllocError>
    ensures { OnOk result (code.new ≡ code.old ++ brought_code before.now place.now (others + done)) }
{
    let Some(above) = others.checked_add(done) else {
        return Err(AllocError);
    };
    if above > 0 {
        code.put(before, place, Instr::Take(above))?;
    }
    Ok(())
}

// Takes away so many values that stand below those that were brought.
fn drop_others(
    code: &mut Code,
    ground: &Shape,
    place: &Place,
    done: usize,
    many: usize,
) -> Result<(), AllocError>
    ensures { OnOk result (code.new ≡ code.old ++ dropped_code ground.now place.now done many) }
{
    let mut left = many;
    while left > 0 {
        let before = ground.up(left)?.up(done)?;
        bring(code, &before, place, 0, done)?;
        code.put(&before, place, Instr::Op(Op::Pop))?;
        left -= 1;
    }
    Ok(())
}
