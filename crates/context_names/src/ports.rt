ghost use Rattle.std.specs.Prelude.{◌≡◌, ◌==◌, ◌++◌, ◌∷◌, [], length, OnOk, OnErr, option_to_list};

use std::alloc::{AllocError, Global};

/// A list of ports, one for each context, in the order of their names.
#[derive(Drop)]
pub struct PortList<P> {
    pub ports: Vec<P>,
}

impl<P> PortList<P> {
    /// No ports.
    pub fn new(alloc: Global) -> Self
        ensures { result.ports.items ≡ [] }
    {
        PortList {
            ports: Vec::new(alloc),
        }
    }

    /// How many there are.
    pub fn len(&self) -> usize
        ensures { result ≡ length self.now.ports.items }
    {
        self.ports.len()
    }

    pub fn is_empty(&self) -> bool
        ensures { result ≡ (length self.now.ports.items == 0) }
    {
        self.ports.is_empty()
    }

    /// Adds a port at the end; where memory runs out the port is dropped.
    pub fn push(&mut self, port: P) -> Result<(), AllocError>
    where
        P: Drop,
        ensures ok { OnOk result (self.new.ports.items ≡ self.old.ports.items ++ port ∷ []) }
        ensures err { OnErr result (self.new.ports.items ≡ self.old.ports.items) }
    {
        self.ports.push(port)?;
        Ok(())
    }

    /// Takes the last port out, where there is one. It takes no memory.
    pub fn pop(&mut self) -> Option<P>
        ensures { self.old.ports.items ≡ self.new.ports.items ++ option_to_list result }
    {
        self.ports.pop()
    }
}
