ghost use Rattle.std.specs.Prelude.{◌≡◌, ℕ};

use edges::{Sink, Source};

/// What answers a connection, with the token of the worker that took it.
pub trait Handler {
    type Token: Send + Drop;

    /// The token may be used with this handler.
    ghost fits: { Self → Self.Token → Type 0 };

    /// The number of a token.
    ghost number: { Self.Token → ℕ };

    /// A connection that is handled makes such a token of this one.
    ghost handled: { Self → Self.Token → Self.Token → Type 0 };

    fn handle<S: Source, K: Sink>(&self, token: &mut Self::Token, source: &mut S, sink: &mut K)
        requires { fits self.now token.old }
        ensures fits { fits self.now token.new }
        ensures number { number token.new ≡ number token.old }
        ensures handled { handled self.now token.old token.new };
}
