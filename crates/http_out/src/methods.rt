ghost use Rattle.std.specs.Prelude.{◌≡◌};
ghost use Rattle.http_out.specs.Methods.{shows_body, takes_method};

/// The field that names the methods that a page takes.
pub(crate) const ALLOW: &[u8] = b"Allow: GET, HEAD, POST\r\n";

/// Whether a page takes the method. Its case counts.
#[tactic(auto, unfolding(crate::specs::Methods::takes_method))]
pub fn takes_method(method: &[u8]) -> bool
    ensures { result ≡ takes_method method.now }
{
    method == b"GET".as_slice() || method == b"HEAD".as_slice() || method == b"POST".as_slice()
}

/// Whether the response to a request of this method has its body, as all have but those to HEAD.
#[tactic(auto, unfolding(crate::specs::Methods::shows_body))]
pub fn shows_body(method: &[u8]) -> bool
    ensures { result ≡ shows_body method.now }
{
    method != b"HEAD".as_slice()
}
