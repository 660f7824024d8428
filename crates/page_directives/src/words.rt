ghost use Rattle.std.specs.Prelude.{◌≡◌};
ghost use Rattle.page_pieces.specs.Settings.{contains_text};
ghost use Rattle.page_directives.specs.Rows.{words};

/// Whether the text is one of these.
pub fn is_among(text: &str, texts: &[&str]) -> bool
    ensures { result ≡ contains_text text.now (words texts.now) }
{
    for item in texts {
        if *item == text {
            return true;
        }
    }
    false
}
