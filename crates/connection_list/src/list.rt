ghost use Rattle.std.specs.Prelude.{◌≡◌, ◌<◌, ℕ, List, true, false, length, IfSome, option_map};
ghost use Rattle.connection_list.specs.List.{IsListOf, first_connection, first_line, length_said};

use pg_text::whole_number;

/// The most digits of a connection's length.
const MAX_DIGITS: usize = 8;

/// Whether this is a list of connections.
pub fn is_list(input: &[u8]) -> bool
    ensures listed { result ≡ true → (connections : List (List ℕ)) × IsListOf input.now connections }
    ensures unlisted { result ≡ false → (connections : List (List ℕ)) → IsListOf input.now connections → ⊥ }
{
    let mut rest = input;
    'connections: while !rest.is_empty() {
        let Some((_, next)) = first_connection(rest) else {
            return false;
        };
        rest = next;
    }
    true
}

/// The first connection of a list, and what is behind it.
pub fn first_connection(input: &[u8]) -> Option<(&[u8], &[u8])>
    ensures split { option_map (λ split. (split.0.now, split.1.now)) result ≡ first_connection input.now }
    ensures shorter { IfSome result (λ split. length split.1.now < length input.now) }
{
    let (line, rest) = first_line(input)?;
    let count = length_said(line)? as usize;
    if count > rest.len() {
        return None;
    }
    Some((&rest[..count], &rest[count..]))
}

// The first line, and what is behind its line feed.
fn first_line(input: &[u8]) -> Option<(&[u8], &[u8])>
    ensures split { option_map (λ split. (split.0.now, split.1.now)) result ≡ first_line input.now }
    ensures shorter { IfSome result (λ split. length split.1.now < length input.now) }
{
    let at = input.iter().position(|byte| *byte == b'\n')?;
    Some((&input[..at], &input[at + 1..]))
}

// The length that a line says.
fn length_said(line: &[u8]) -> Option<u64>
    ensures { result ≡ length_said line.now }
{
    if line.len() > MAX_DIGITS {
        return None;
    }
    whole_number(line)
}
