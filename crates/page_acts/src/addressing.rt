use crate::named::Variable;

/// An action with attributes and params, apart from these: it is done on the address that they
/// make.
#[derive(Drop)]
pub enum Addressing {
    /// `c:import`, with the variable for the text, where one is given.
    Import(Option<Variable>),
    /// `c:url`, with the variable for the address, where one is given.
    Url(Option<Variable>),
    /// `c:redirect`.
    Redirect,
    /// `jsp:include`, with whether it flushes before.
    Include(bool),
    /// `jsp:forward`.
    Forward,
}
