ghost use Rattle.std.specs.Prelude.{◌≡◌, IfOk, SomeIff};
ghost use Rattle.page_code.specs.Fits.{CodeFits};

use crate::whole::check;
use page_code::{Code, PackedCode};
use std::alloc::AllocError;
use std::marker::Model;

/// A code whose shapes fit, packed. Contracts see the list of its cells.
#[derive(Drop)]
pub struct CheckedCode {
    code: PackedCode,
}

impl Model for CheckedCode {
    ghost use Rattle.std.specs.Prelude.{List};
    ghost use Rattle.page_code.specs.declared.code.Cell.{Cell};

    ghost Value = { List Cell };

    ghost use Rattle.pg_value.specs.DatumCode.{data_code, datum_code, entries_code};
    ghost use Rattle.std.specs.Coded.{codes};

    ghost coded = { Prim.hlevel (codes, entries_code, data_code, datum_code) };

    ghost use Rattle.page_code.specs.Fits.{CodeFits};

    ghost view = { λ c. c.code };

    ghost invariant = { λ c. CodeFits c.code };
}

impl CheckedCode {
    /// The code, or None where its shapes don't fit.
    pub fn new(code: Code) -> Result<Option<Self>, AllocError>
        ensures { IfOk result (λ checked. SomeIff checked (CodeFits code) code) }
    {
        if !check(&code) {
            return Ok(None);
        }
        Ok(Some(CheckedCode { code: code.pack()? }))
    }

    pub fn code(&self) -> &PackedCode
        ensures same { result.now ≡ self.now }
        ensures fits { CodeFits self.now }
    {
        &self.code
    }
}
