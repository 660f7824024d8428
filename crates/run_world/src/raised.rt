use pg_text::Place;
use pg_value::RunFault;

/// A fault that a run raised, with its place.
#[derive(Drop)]
pub struct Raise {
    pub fault: RunFault,
    pub place: Place,
}
