// Names among names.
ghost use Rattle.std.specs.Prelude.{◌≡◌};
ghost use Rattle.code_lowering.specs.Lowering.{has};

use pg_text::Text;

/// Whether a name is among these.
pub(crate) fn has(names: &[Text], name: &str) -> bool
    ensures { result ≡ has name.now names.now }
{
    for other in names {
        if name == other.as_str() {
            return true;
        }
    }
    false
}
