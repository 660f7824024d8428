ghost use Rattle.std.specs.Prelude.{◌≡◌, IsUtf8};

// The bytes as the text that they are.
pub fn text_of(bytes: &[u8]) -> &str
    requires { IsUtf8 bytes.now }
    ensures { result.now ≡ bytes.now }
{
    unsafe { str::from_utf8_unchecked(bytes) }
}
