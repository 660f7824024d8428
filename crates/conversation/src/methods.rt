// What the method of a request means for its response.
ghost use Rattle.std.specs.Prelude.{◌≡◌};
ghost use Rattle.http_out.specs.Methods.{shows_body, takes_method};

use http_in::Request;

/// Whether a page takes the method of the request.
pub fn takes_method(request: &Request) -> bool
    ensures { result ≡ takes_method request.now.method }
{
    http_out::takes_method(request.method.as_bytes())
}

/// Whether the response to the request shows its body.
pub fn shows_body(request: &Request) -> bool
    ensures { result ≡ shows_body request.now.method }
{
    http_out::shows_body(request.method.as_bytes())
}
