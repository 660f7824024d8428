/// What each operation on a shared site passes before it draws its turn. A test holds an operation
/// there.
pub trait Gate {
    /// Returns when the operation may go on. The point is the number of the pass that acts.
    fn pass(&self, point: u64);
}

/// Lets everything through at once.
#[derive(Clone, Copy, Debug, Drop)]
pub struct OpenGate;

impl Gate for OpenGate {
    fn pass(&self, _point: u64) {}
}
