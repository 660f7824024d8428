ghost use Rattle.std.specs.Prelude.{◌≡◌, ◌+◌, ◌-◌, ◌<◌, ◌≤◌, true, length, take, drop, IfSome};
ghost use Rattle.std.specs.Option.{option_map};
ghost use Rattle.page_pieces.specs.Texts.{begins, after, around};

/// What follows the mark, where the text begins with it.
pub fn after<'a>(mark: &str, text: &'a str) -> Option<&'a str>
    ensures value { option_map (λ rest. rest.now) result ≡ after mark.now text.now }
    ensures within { IfSome result (λ rest. length rest.now + length mark.now ≡ length text.now) }
{
    text.strip_prefix(mark)
}

/// Whether the text begins with the mark.
pub fn begins(mark: &str, text: &str) -> bool
    ensures { result ≡ begins mark.now text.now }
{
    text.starts_with(mark)
}

// What follows the mark with which the text begins.
pub(crate) fn behind<'a>(mark: &str, text: &'a str) -> &'a str
    requires { begins mark.now text.now ≡ true }
    ensures value { result.now ≡ drop (length mark.now) text.now }
    ensures within { length result.now + length mark.now ≡ length text.now }
{
    text.split_at(mark.len()).1
}

// What stands before the first of these marks, and what follows it.
pub(crate) fn around<'a>(mark: &str, text: &'a str) -> Option<(&'a str, &'a str)>
    requires { 0 < length mark.now }
    ensures value { option_map (λ x. (x.0.now, x.1.now)) result ≡ around mark.now text.now }
    ensures within { IfSome result (λ x. length x.0.now + length x.1.now + length mark.now ≤ length text.now) }
{
    text.split_once(mark)
}

// What stands before the last bytes of a text, so many of them.
pub(crate) fn before_last(text: &str, len: usize) -> &[u8]
    requires { len ≤ length text.now }
    ensures value { result.now ≡ take (length text.now - len) text.now }
    ensures within { length result.now + len ≡ length text.now }
{
    text.as_bytes().split_at(text.len() - len).0
}
