ghost use Rattle.std.specs.Prelude.{◌≡◌, ◌<◌, ◌+◌, length, slice_index, Some, IfSome};
ghost use Rattle.std.specs.List.{position};
ghost use Rattle.std.specs.Option.{option_map};
ghost use Rattle.context_names.specs.Targets.{is_slash, named};

/// The bytes between the first and the second slash of a target, and the index of the second. None
/// where there are no two.
pub(crate) fn named(target: &[u8]) -> Option<(&[u8], usize)>
    ensures found { option_map (λ found. (found.0.now, found.1)) result ≡ named target.entry.now }
    ensures slash { IfSome result (λ found. (found.1 < length target.entry.now)
        × (slice_index target.entry.now found.1 ≡ 47)) }
{
    let first = slash_in(target)?;
    let rest = &target[first + 1..];
    let len = slash_in(rest)?;
    Some((&rest[..len], first + 1 + len))
}

// Where the first slash stands.
fn slash_in(bytes: &[u8]) -> Option<usize>
    ensures place { result ≡ position is_slash bytes.now }
    ensures within { IfSome result (λ at. at < length bytes.now) }
    ensures slash { IfSome result (λ at. slice_index bytes.now at ≡ 47) }
{
    bytes.iter().position(|b| *b == b'/')
}
