use pg_text::Text;
use pg_value::Scope;

/// A variable that an action names, with its scope where one is given.
#[derive(Drop)]
pub struct Variable {
    pub name: Text,
    pub scope: Option<Scope>,
}

/// What `jsp:setProperty` sets.
#[derive(Drop)]
pub enum Property {
    /// All properties, each from the parameter of its name.
    Every,
    /// One property. Where no value is given, it comes from a parameter.
    One { property: Text, parameter: Text },
}
