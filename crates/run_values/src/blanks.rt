ghost use Rattle.std.specs.Prelude.{◌≡◌, ◌≤◌, length, reverse};
ghost use Rattle.std.specs.List.{prefix_len, suffix_len};
ghost use Rattle.httparse.specs.Grammar.{is_ows, skip_ows, trim_ows};

/// A text without the spaces and tabs at both ends.
#[tactic(auto, unfolding(httparse::specs::Grammar::trim_ows))]
pub fn trim(text: &str) -> &str
    ensures { result.now ≡ trim_ows text.now }
{
    trim_end(trim_start(text))
}

fn trim_start(text: &str) -> &str
    ensures { result.now ≡ skip_ows text.now }
{
    let (_, behind) = text.split_at(blanks_first(text.as_bytes()));
    behind
}

fn trim_end(text: &str) -> &str
    ensures { result.now ≡ reverse (skip_ows (reverse text.now)) }
{
    let (before, _) = text.split_at(text.len() - blanks_last(text.as_bytes()));
    before
}

// How many spaces and tabs stand first.
fn blanks_first(bytes: &[u8]) -> usize
    ensures within { result ≤ length bytes.now }
    ensures value { result ≡ prefix_len is_ows bytes.now }
{
    bytes.iter().take_while(|byte| is_blank(**byte)).count()
}

// How many spaces and tabs stand last.
fn blanks_last(bytes: &[u8]) -> usize
    ensures within { result ≤ length bytes.now }
    ensures value { result ≡ suffix_len is_ows bytes.now }
{
    bytes
        .iter()
        .rev()
        .take_while(|byte| is_blank(**byte))
        .count()
}

fn is_blank(byte: u8) -> bool
    ensures { result ≡ is_ows byte }
{
    byte == b' ' || byte == b'\t'
}
