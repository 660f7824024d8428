ghost use Rattle.std.specs.Prelude.{◌≡◌, [], map, option_map, string_bytes, IfOk, OnErr, OnOk};
ghost use Rattle.pg_value.specs.Attrs.{entry_at, with_entry, without_entry};
ghost use Rattle.pg_value.specs.Value.{datum_of, entry_of};
ghost use Rattle.scopes.specs.ReadTree.{in_tree};

use pg_value::{Attrs, Text, Value};
use std::alloc::{AllocError, Global};
use std::collections::BTreeMap;
use std::marker::Model;
use std::string::String;

type Tree = BTreeMap<String, Value>;

// Variables in a tree, where one more moves none of the others. Contracts see the list of them, as
// of an `Attrs`.
#[derive(Drop)]
pub(crate) struct VariableTree {
    alloc: Global,
    entries: Tree,
}

impl Model for VariableTree {
    ghost use Rattle.std.specs.Prelude.{List, ℕ};
    ghost use Rattle.pg_value.specs.Attrs.{AreInOrder};
    ghost use Rattle.pg_value.specs.Datum.{Datum};
    ghost use Rattle.pg_value.specs.DatumCode.{entries_code};
    ghost use Rattle.scopes.specs.ReadTree.{in_tree};

    ghost Value = { List (List ℕ × Datum) };

    ghost coded = { entries_code };

    ghost view = { λ t. in_tree t.entries.entries };

    ghost invariant = { λ t. AreInOrder (in_tree t.entries.entries) };
}

impl VariableTree {
    // No variables.
    pub fn empty(alloc: Global) -> Self
        ensures { result ≡ [] }
    {
        VariableTree {
            alloc,
            entries: BTreeMap::new(alloc),
        }
    }

    // These variables in a tree.
    pub fn of(variables: Attrs) -> Result<Self, AllocError>
        ensures { IfOk result (λ tree. tree ≡ variables) }
    {
        let variables = variables.into_vec();
        let mut tree = VariableTree::empty(*variables.allocator());
        for (name, value) in variables {
            tree.set(&name, value)?;
        }
        Ok(tree)
    }

    // What stands under the name.
    pub fn get(&self, name: &str) -> Option<&Value>
        ensures { option_map (λ value. datum_of value.now) result ≡ entry_at name.now self.now }
    {
        self.entries.get(name)
    }

    // Puts the value under the name, in the place of what stood there.
    pub fn set(&mut self, name: &Text, value: Value) -> Result<(), AllocError>
        ensures ok { OnOk result (self.new ≡ with_entry self.old name.now (datum_of value)) }
        ensures err { OnErr result (self.new ≡ self.old) }
    {
        let key = String::from_str(self.alloc, name.as_str())?;
        put(&mut self.entries, key, value)
    }

    // Takes out what stands under the name.
    pub fn remove(&mut self, name: &str)
        ensures { self.new ≡ without_entry self.old name.now }
    {
        self.entries.remove(name);
    }

    // The variables in a list.
    pub fn to_attrs(&self) -> Result<Attrs, AllocError>
        ensures { IfOk result (λ variables. variables ≡ self.now) }
    {
        Ok(Attrs::new(listed(self.alloc, &self.entries)?))
    }
}

fn put(entries: &mut Tree, name: String, value: Value) -> Result<(), AllocError>
    ensures ok { OnOk result (in_tree entries.new.entries
        ≡ with_entry (in_tree entries.old.entries) (string_bytes name) (datum_of value)) }
    ensures err { OnErr result (entries.new.entries ≡ entries.old.entries) }
{
    entries.insert(name, value)?;
    Ok(())
}

fn listed(alloc: Global, entries: &Tree) -> Result<Vec<(Text, Value)>, AllocError>
    ensures { IfOk result (λ listed. map entry_of listed.items ≡ in_tree entries.now.entries) }
{
    let mut listed = Vec::with_capacity(alloc, entries.len())?;
    for (name, value) in entries {
        listed.push((Text::copy_of(alloc, name.as_str())?, value.copy()?))?;
    }
    Ok(listed)
}
