/// What an attribute of an action takes.
#[derive(Clone, Copy, Debug, PartialEq, Eq)]
pub enum Takes {
    /// Any value, with expressions.
    AnyValue,
    /// A text without expressions.
    PlainText,
    TruthValue,
    /// The name of a scope.
    ScopeName,
    /// One `${name}`.
    OneName,
    /// It is left out of the language.
    LeftOut,
}

/// What the body of an action may hold.
#[derive(Clone, Copy, Debug, PartialEq, Eq)]
pub enum Holds {
    Anything,
    /// Nothing, so that there is no body.
    Nothing,
    Params,
    Branches,
}

/// Where an action may stand.
#[derive(Clone, Copy, Debug, PartialEq, Eq)]
pub enum Stands {
    Anywhere,
    /// As a param of the core library.
    CoreParam,
    /// Where `jsp:param` may stand: in a standard action that takes params.
    StandardParam,
    /// As a branch of a choice.
    Branch,
    /// As a part of an action.
    Part,
    /// Anywhere in a tag file.
    InTagFile,
}

/// What a table of actions says of each.
#[derive(Clone, Copy)]
pub struct Row {
    pub attributes: &'static [(&'static str, Takes)],
    pub required: &'static [&'static str],
    pub holds: Holds,
    pub stands: Stands,
}
