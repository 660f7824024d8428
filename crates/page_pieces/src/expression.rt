ghost use Rattle.std.specs.Prelude.{◌≡◌, ◌<◌, ◌≤◌, ◌+◌, ◌^◌, Some, length, take, drop, IfSome};
ghost use Rattle.std.specs.List.{slice_index};
ghost use Rattle.std.specs.Option.{option_map};
ghost use Rattle.page_pieces.specs.ReadExpression.{outside_literal, within_literal, scan_byte};
ghost use Rattle.page_pieces.specs.ReadExpression.{nothing_open, around_brace};

// What is open within an expression: a string literal with its quote, and so many braces.
#[derive(Clone, Copy)]
pub(crate) struct Scanning {
    pub literal: Option<u8>,
    pub escaped: bool,
    pub depth: u64,
}

// What is open behind a byte that stands outside a literal, or nothing where it ends the
// expression.
fn outside_literal(state: Scanning, b: u8) -> Option<Scanning>
    requires { state.depth < 2 ^ 63 }
    ensures value { result ≡ outside_literal state b }
    ensures depth { IfSome result (λ next. next.depth ≤ state.depth + 1) }
{
    if b == b'}' {
        if state.depth == 0 {
            return None;
        }
        return Some(Scanning {
            depth: state.depth - 1,
            ..state
        });
    }
    if b == b'{' {
        return Some(Scanning {
            depth: state.depth + 1,
            ..state
        });
    }
    if b == b'"' || b == b'\'' {
        return Some(Scanning {
            literal: Some(b),
            ..state
        });
    }
    Some(state)
}

// What is open behind a byte that stands in a literal with this quote.
fn within_literal(quote: u8, state: Scanning, b: u8) -> Scanning
    ensures value { within_literal quote state b ≡ Some result }
    ensures depth { result.depth ≡ state.depth }
{
    if state.escaped {
        return Scanning {
            escaped: false,
            ..state
        };
    }
    if b == b'\\' {
        return Scanning {
            escaped: true,
            ..state
        };
    }
    if b == quote {
        return Scanning {
            literal: None,
            ..state
        };
    }
    state
}

// What is open behind the next byte of an expression, or nothing where it ends the expression.
fn scan_byte(state: Scanning, b: u8) -> Option<Scanning>
    requires { state.depth < 2 ^ 63 }
    ensures value { result ≡ scan_byte state b }
    ensures depth { IfSome result (λ next. next.depth ≤ state.depth + 1) }
{
    match state.literal {
        None => outside_literal(state, b),
        Some(quote) => Some(within_literal(quote, state, b)),
    }
}

// Where the `}` stands that ends an expression.
fn brace_at(text: &[u8]) -> Option<usize>
    ensures value { option_map (λ n. (take n text.now, drop (n + 1) text.now)) result
        ≡ around_brace nothing_open text.now }
    ensures brace { IfSome result (λ n. (n < length text.now) × (slice_index text.now n ≡ 125)) }
{
    let mut state = Scanning {
        literal: None,
        escaped: false,
        depth: 0,
    };
    for (i, b) in text.iter().enumerate() {
        match scan_byte(state, *b) {
            None => return Some(i),
            Some(next) => state = next,
        }
    }
    None
}

// What stands before the `}` that ends an expression, and what follows it.
pub(crate) fn around_brace(text: &str) -> Option<(&str, &str)>
    ensures value { option_map (λ x. (x.0.now, x.1.now)) result ≡ around_brace nothing_open text.now }
    ensures within { IfSome result (λ x. length x.0.now + length x.1.now < length text.now) }
{
    let at = brace_at(text.as_bytes())?;
    let (inside, _) = text.split_at(at);
    let (_, behind) = text.split_at(at + 1);
    Some((inside, behind))
}
