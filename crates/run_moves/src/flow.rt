// Where a run goes.
use http_in::Param;
use pg_text::{Listed, Path, Place, Text};
use pg_value::RunFault;

/// How a run ends.
#[derive(Drop)]
pub enum End {
    Normal,
    /// The page is over, and the one at this path runs with these parameters and so many levels
    /// left below it.
    Forward {
        path: Path,
        params: Listed<Param>,
        left: u32,
    },
    /// The page is over, and the client is sent to this address.
    Redirect(Text),
    Raised {
        fault: RunFault,
        place: Place,
    },
    NoMemory,
}

/// Where an instruction leads: on at a place of its code, or to an end.
#[derive(Drop)]
pub enum Flow {
    Go(usize),
    Over(End),
}
