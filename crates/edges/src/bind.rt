ghost use Rattle.std.specs.Prelude.{◌≡◌, ℕ, IfOk};
ghost use Rattle.edges.specs.Faults.{HasCause};

use crate::{Accept, Failed};

/// What binds listeners to ports.
pub trait Bind {
    type On: Accept + Sync + Drop;

    /// How often it has failed. The count may stop at `u64::MAX`.
    ghost faults: { Self → ℕ };

    /// The port to which a listener was bound.
    ghost bound_to: { Self.On → ℕ };

    /// Binds a listener to a port, whose rounds have so many connections, or no end.
    fn bind(&mut self, port: u16, round: Option<u32>) -> Result<Self::On, Failed>
        ensures cause { HasCause (faults self.old) (faults self.new) result }
        ensures port { IfOk result (λ on. bound_to on ≡ port) };
}
