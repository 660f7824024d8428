ghost use Rattle.http_out.specs.Response.{PartsJoin};

/// What the calls of this crate write is, joined, the wire of a response. This call does nothing:
/// its contract is the law.
pub fn parts_join()
    ensures { PartsJoin }
{}
