// How texts of few bytes begin and end. The kit's own tests are for long ones, which they look at
// in groups.
ghost use Rattle.std.specs.Prelude.{◌≡◌, nat_eq};
ghost use Rattle.std.specs.List.{ends_with, starts_with};

/// Whether bytes begin so.
pub fn has_prefix(bytes: &[u8], prefix: &[u8]) -> bool
    ensures { result ≡ starts_with nat_eq bytes.now prefix.now }
{
    prefix == &bytes[..prefix.len().min(bytes.len())]
}

/// Whether bytes end so.
pub fn has_suffix(bytes: &[u8], suffix: &[u8]) -> bool
    ensures { result ≡ ends_with nat_eq bytes.now suffix.now }
{
    suffix == &bytes[bytes.len().saturating_sub(suffix.len())..]
}
