ghost use Rattle.std.specs.Prelude.{◌≡◌, ◌++◌, IfOk};

use page_pieces::Spot;
use pg_text::Text;
use std::alloc::AllocError;

// Template text that was read last: what it says so far, and where it begins.
#[derive(Drop)]
pub(crate) struct Run {
    pub text: Text,
    pub spot: Spot,
}

impl Run {
    // The template text with more behind it.
    pub fn followed_by(self, more: &str) -> Result<Self, AllocError>
        ensures { IfOk result (λ run. run ≡ record { text = self.text ++ more.now; spot = self.spot }) }
    {
        let mut text = self.text;
        text.push_str(more)?;
        Ok(Run {
            text,
            spot: self.spot,
        })
    }
}
