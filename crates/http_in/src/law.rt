ghost use Rattle.http_in.specs.Law.{HasOneCut};

/// Bytes are cut into requests in one way, whatever pieces they came in. This call does nothing:
/// its contract is the law.
pub fn one_cut()
    ensures { HasOneCut }
{}
