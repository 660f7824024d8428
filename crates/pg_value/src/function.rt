ghost use Rattle.std.specs.Prelude.{◌≡◌};
ghost use Rattle.pg_value.specs.Function.{arity_of, function_named};

/// A function of the functions library, `fn`.
#[derive(Clone, Copy, Debug, PartialEq, Eq)]
pub enum Function {
    Contains,
    ContainsIgnoreCase,
    EndsWith,
    StartsWith,
    EscapeXml,
    IndexOf,
    Join,
    Length,
    Replace,
    Split,
    Substring,
    SubstringAfter,
    SubstringBefore,
    ToLowerCase,
    ToUpperCase,
    Trim,
}

impl Function {
    /// The function of this name, as `containsIgnoreCase`, where there is one.
    pub fn of_name(name: &str) -> Option<Self>
        ensures { result ≡ function_named name.now }
    {
        match name {
            "contains" => Some(Function::Contains),
            "containsIgnoreCase" => Some(Function::ContainsIgnoreCase),
            "endsWith" => Some(Function::EndsWith),
            "startsWith" => Some(Function::StartsWith),
            "escapeXml" => Some(Function::EscapeXml),
            "indexOf" => Some(Function::IndexOf),
            "join" => Some(Function::Join),
            "length" => Some(Function::Length),
            "replace" => Some(Function::Replace),
            "split" => Some(Function::Split),
            "substring" => Some(Function::Substring),
            "substringAfter" => Some(Function::SubstringAfter),
            "substringBefore" => Some(Function::SubstringBefore),
            "toLowerCase" => Some(Function::ToLowerCase),
            "toUpperCase" => Some(Function::ToUpperCase),
            "trim" => Some(Function::Trim),
            _ => None,
        }
    }

    /// The number of its arguments.
    pub fn arity(self) -> usize
        ensures { result ≡ arity_of self }
    {
        match self {
            Function::EscapeXml
            | Function::Length
            | Function::ToLowerCase
            | Function::ToUpperCase
            | Function::Trim => 1,
            Function::Contains
            | Function::ContainsIgnoreCase
            | Function::EndsWith
            | Function::StartsWith
            | Function::IndexOf
            | Function::Join
            | Function::Split
            | Function::SubstringAfter
            | Function::SubstringBefore => 2,
            Function::Replace | Function::Substring => 3,
        }
    }
}
