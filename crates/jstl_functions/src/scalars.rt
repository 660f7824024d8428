ghost use Rattle.std.specs.Prelude.{◌≡◌, ◌<◌, ◌^◌, chars, length};

// How many characters a text has.
pub(crate) fn scalar_count(text: &str) -> usize
    ensures value { result ≡ length (chars text.now) }
    ensures small { result < 2 ^ 63 }
{
    text.chars().count()
}
