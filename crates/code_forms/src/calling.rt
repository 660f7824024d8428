// Calls of tag files, and what they hand down.
ghost use Rattle.std.specs.Prelude.{◌≡◌, [], ◌∷◌, ◌++◌, length, IfOk, OnOk};
ghost use Rattle.page_code.specs.Shapes.{cell};
ghost use Rattle.page_code.specs.declared.call.CallBody.TheVariants as body_is;
ghost use Rattle.page_code.specs.declared.call.CallOut.TheVariants as call_is;
ghost use Rattle.page_code.specs.declared.instr.Instr.TheVariants as instr;
ghost use Rattle.code_forms.specs.Codes.{handed_code};

use crate::cells::one_cell;
use page_code::{CallBody, CallOut, Code, Fragment, Instr, Leave, Shape, Shared, TagCall};
use pg_text::{Listed, Path, Place, Text};
use std::alloc::{AllocError, Global};

/// What a call hands down: a body or none, fragments by their names, and the cells of all of them,
/// which stand behind the call.
#[derive(Drop)]
pub struct Handed {
    pub body: CallBody,
    pub fragments: Listed<Fragment>,
    pub cells: Code,
}

impl Handed {
    /// No body and no fragments.
    pub fn nothing(alloc: Global) -> Self
        ensures { result ≡ record { body = body_is.Absent; fragments = []; cells = [] } }
    {
        Handed {
            body: CallBody::Absent,
            fragments: Listed::empty(alloc),
            cells: Code::new(alloc),
        }
    }

    /// The body of a tag file that declares it tagdependent: its text as it was written, without
    /// fragments.
    pub fn source(alloc: Global, text: Text) -> Self
        ensures { result ≡ record { body = body_is.Source text; fragments = []; cells = [] } }
    {
        Handed {
            body: CallBody::Source(text),
            fragments: Listed::empty(alloc),
            cells: Code::new(alloc),
        }
    }

    /// A body that is run where it is asked for, by its code with its end, and no fragments.
    pub fn body(alloc: Global, code: Code) -> Self
        ensures { result ≡ record { body = body_is.Cells (length code); fragments = []; cells = code } }
    {
        Handed {
            body: CallBody::Cells(code.len()),
            fragments: Listed::empty(alloc),
            cells: code,
        }
    }

    /// Adds a fragment: its name, and its code with its end, behind the cells that are there.
    /// Where memory runs out the name may stand without its code, or the code in part, so all of
    /// it is to be let go.
    pub fn add_fragment(&mut self, name: Text, code: Code) -> Result<(), AllocError>
        ensures { OnOk result (self.new ≡ record {
          body = self.old.body;
          fragments = self.old.fragments
              ++ record { name = name; size = length code } ∷ [];
          cells = self.old.cells ++ code;
        }) }
    {
        let size = code.len();
        self.fragments.push(Fragment { name, size })?;
        self.cells.join(code)
    }
}

/// The code of a part that is handed down, with its end.
pub fn ended(alloc: Global, place: &Place, part: Code) -> Result<Code, AllocError>
    ensures { IfOk result (λ code. code ≡ handed_code place.now part) }
{
    let mut code = part;
    code.put(&Shape::empty(alloc)?, place, Instr::Leave(Leave::End))?;
    Ok(code)
}

/// The code of the call of a tag file with the values of these names, where so much stands open
/// before these are taken.
pub fn tag_call(
    alloc: Global,
    before: &Shape,
    place: &Place,
    path: Path,
    names: Listed<Text>,
    down: Handed,
) -> Result<Code, AllocError>
    ensures { IfOk result (λ code. code ≡ cell before.now place.now
        (instr.CallOut (call_is.Tag (record {
          path = path;
          names = names;
          body = down.body;
          fragments =
              down.fragments;
        }))) ∷ down.cells) }
{
    let Handed {
        body,
        fragments,
        cells,
    } = down;
    let call = TagCall {
        path,
        names,
        body,
        fragments,
    };
    let call = CallOut::Tag(Shared::new(alloc, call)?);
    let mut code = one_cell(alloc, before, place, Instr::CallOut(call))?;
    code.join(cells)?;
    Ok(code)
}
