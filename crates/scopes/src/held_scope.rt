ghost use Rattle.std.specs.Prelude.{◌≡◌};
ghost use Rattle.scopes.specs.HeldScope.{held_scope};

use pg_value::Scope;

/// A scope whose variables a page run holds itself: every one but application scope, which belongs
/// to the site.
#[derive(Clone, Copy, Debug, PartialEq, Eq)]
pub enum HeldScope {
    /// The current frame.
    Page,
    Request,
    Session,
}

impl HeldScope {
    /// The scope as one that is held, or None for application scope.
    pub fn of(scope: Scope) -> Option<Self>
        ensures { result ≡ held_scope scope }
    {
        match scope {
            Scope::Page => Some(HeldScope::Page),
            Scope::Request => Some(HeldScope::Request),
            Scope::Session => Some(HeldScope::Session),
            Scope::Application => None,
        }
    }
}
