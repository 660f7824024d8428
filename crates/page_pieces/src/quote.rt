ghost use Rattle.std.specs.Prelude.{◌≡◌, ◌<◌, IfSome, false, length, true};
ghost use Rattle.std.specs.Option.{option_map};
ghost use Rattle.pg_text.specs.Literals.{is_quote};
ghost use Rattle.page_pieces.specs.ReadValue.{around_quote, ends_value, takes_next};

// What stands before the quote that ends a value, and what follows it.
pub(crate) fn around_quote(quote: u8, text: &str) -> Option<(&str, &str)>
    requires { is_quote quote ≡ true }
    ensures value { option_map (λ found. (found.0.now, found.1.now)) result ≡ around_quote quote false text.now }
    ensures within { IfSome result (λ found. length found.1.now < length text.now) }
{
    let mut escaped = false;
    for (i, b) in text.as_bytes().iter().enumerate() {
        if ends_value(quote, escaped, *b) {
            let (value, _) = text.split_at(i);
            let (_, rest) = text.split_at(i + 1);
            return Some((value, rest));
        }
        escaped = takes_next(escaped, *b);
    }
    None
}

// Whether a byte ends the value: the quote does, unless a backslash before it takes it along.
fn ends_value(quote: u8, escaped: bool, b: u8) -> bool
    ensures { result ≡ ends_value quote escaped b }
{
    !escaped && b == quote
}

// Whether a byte takes the next one along: a backslash does, unless it was taken along itself.
fn takes_next(escaped: bool, b: u8) -> bool
    ensures { result ≡ takes_next escaped b }
{
    !escaped && b == b'\\'
}
