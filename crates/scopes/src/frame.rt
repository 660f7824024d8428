ghost use Rattle.std.specs.Prelude.{◌≡◌, [], option_map, IfOk, OnErr, OnOk};
ghost use Rattle.pg_value.specs.Attrs.{entry_at, with_entry, without_entry};
ghost use Rattle.pg_value.specs.Value.{datum_of};

use crate::variable_tree::VariableTree;
use pg_value::{Attrs, Text, Value};
use std::alloc::{AllocError, Global};
use std::marker::Model;

// A list of so many variables becomes a tree before one more comes: in a list that moves those
// behind it.
const MANY: usize = 64;

// The variables of a frame or of request scope. Contracts see the list of them, as of an `Attrs`.
#[derive(Drop)]
pub(crate) struct Frame {
    variables: Variables,
}

#[derive(Drop)]
enum Variables {
    Few(Attrs),
    Many(VariableTree),
}

impl Model for Frame {
    ghost use Rattle.std.specs.Prelude.{List, ℕ};
    ghost use Rattle.pg_value.specs.Datum.{Datum};
    ghost use Rattle.pg_value.specs.DatumCode.{entries_code};
    ghost use Rattle.scopes.specs.ReadFrame.{in_variables};

    ghost Value = { List (List ℕ × Datum) };

    ghost coded = { entries_code };

    ghost view = { λ f. in_variables f.variables };
}

impl Frame {
    // No variables.
    pub fn empty(alloc: Global) -> Self
        ensures { result ≡ [] }
    {
        Frame::of(Attrs::empty(alloc))
    }

    // These variables.
    pub fn of(variables: Attrs) -> Self
        ensures { result ≡ variables }
    {
        Frame {
            variables: Variables::Few(variables),
        }
    }

    // What stands under the name.
    #[inline(always)]
    pub fn get(&self, name: &str) -> Option<&Value>
        ensures { option_map (λ value. datum_of value.now) result ≡ entry_at name.now self.now }
    {
        match &self.variables {
            Variables::Few(few) => few.get(name),
            Variables::Many(many) => many.get(name),
        }
    }

    // Puts the value under the name, in the place of what stood there.
    pub fn set(&mut self, name: &Text, value: Value) -> Result<(), AllocError>
        ensures ok { OnOk result (self.new ≡ with_entry self.old name.now (datum_of value)) }
        ensures err { OnErr result (self.new ≡ self.old) }
    {
        self.make_room()?;
        match &mut self.variables {
            Variables::Few(few) => few.set(name, value),
            Variables::Many(many) => many.set(name, value),
        }
    }

    // The variables come into a tree where they are many.
    #[inline(always)]
    fn make_room(&mut self) -> Result<(), AllocError>
        ensures { self.new ≡ self.old }
    {
        match &self.variables {
            Variables::Few(few) if few.len() >= MANY => self.plant(),
            _ => Ok(()),
        }
    }

    // The variables come into a tree.
    #[inline(never)]
    fn plant(&mut self) -> Result<(), AllocError>
        ensures { self.new ≡ self.old }
    {
        let Variables::Few(few) = &self.variables else {
            return Ok(());
        };
        let many = VariableTree::of(few.copy()?)?;
        self.variables = Variables::Many(many);
        Ok(())
    }

    // Takes out what stands under the name.
    pub fn remove(&mut self, name: &str)
        ensures { self.new ≡ without_entry self.old name.now }
    {
        match &mut self.variables {
            Variables::Few(few) => few.remove(name),
            Variables::Many(many) => many.remove(name),
        }
    }

    // The variables in a list.
    pub fn to_attrs(&self) -> Result<Attrs, AllocError>
        ensures { IfOk result (λ variables. variables ≡ self.now) }
    {
        match &self.variables {
            Variables::Few(few) => few.copy(),
            Variables::Many(many) => many.to_attrs(),
        }
    }
}
