use crate::named::Variable;
use pg_text::Text;

/// An action with attributes and a body, apart from these.
#[derive(Drop)]
pub enum Enclosing {
    /// `c:out`.
    Out,
    /// `c:set` of a variable.
    Set(Variable),
    /// `c:set` of an entry of the record that the variable of this name holds.
    SetEntry(Text),
    /// `c:if`, with the variable for the value of its test, where one is given.
    If(Option<Variable>),
    /// `c:forEach`, with its variables.
    ForEach {
        variable: Option<Text>,
        status: Option<Text>,
    },
    /// `c:forTokens`, with its variables.
    ForTokens {
        variable: Option<Text>,
        status: Option<Text>,
    },
}
