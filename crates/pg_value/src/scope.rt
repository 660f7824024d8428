/// A scope in which a page's names stand.
#[derive(Clone, Copy, Debug, PartialEq, Eq)]
pub enum Scope {
    Page,
    Request,
    Session,
    Application,
}
