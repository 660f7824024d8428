/// A fault of a page's text, by which it makes no page. The order is that of their numbers, E1 to
/// E21.
#[derive(Clone, Copy, Debug, PartialEq, Eq)]
pub enum TranslationFault {
    NotUtf8 = 1,
    Unclosed,
    WrongEnd,
    Scripting,
    XmlSyntax,
    BadDirective,
    Clash,
    NoFile,
    IncludeCycle,
    BadTaglib,
    NoTag,
    BadAttribute,
    BadNesting,
    BadBody,
    ElSyntax,
    ElNotHere,
    NoFunction,
    Decimal,
    LeftOut,
    TooLarge,
    UnbufferedNoFlush,
}

impl TranslationFault {
    ghost use Rattle.std.specs.Prelude.{◌≡◌};
    ghost use Rattle.pg_text.specs.Faults.{name_of, number_of};

    /// The number, as 2 for E2.
    pub fn number(self) -> u8
        ensures { result ≡ number_of self }
    {
        self as u8
    }

    /// The name, as `Unclosed`.
    pub fn name(self) -> &'static str
        ensures { result.now ≡ name_of self }
    {
        match self {
            TranslationFault::NotUtf8 => "NotUtf8",
            TranslationFault::Unclosed => "Unclosed",
            TranslationFault::WrongEnd => "WrongEnd",
            TranslationFault::Scripting => "Scripting",
            TranslationFault::XmlSyntax => "XmlSyntax",
            TranslationFault::BadDirective => "BadDirective",
            TranslationFault::Clash => "Clash",
            TranslationFault::NoFile => "NoFile",
            TranslationFault::IncludeCycle => "IncludeCycle",
            TranslationFault::BadTaglib => "BadTaglib",
            TranslationFault::NoTag => "NoTag",
            TranslationFault::BadAttribute => "BadAttribute",
            TranslationFault::BadNesting => "BadNesting",
            TranslationFault::BadBody => "BadBody",
            TranslationFault::ElSyntax => "ElSyntax",
            TranslationFault::ElNotHere => "ElNotHere",
            TranslationFault::NoFunction => "NoFunction",
            TranslationFault::Decimal => "Decimal",
            TranslationFault::LeftOut => "LeftOut",
            TranslationFault::TooLarge => "TooLarge",
            TranslationFault::UnbufferedNoFlush => "UnbufferedNoFlush",
        }
    }
}
