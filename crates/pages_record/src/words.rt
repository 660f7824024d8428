ghost use Rattle.std.specs.Prelude.{◌≡◌, map, string_bytes};
ghost use Rattle.pages_record.specs.Words.{record_asked};

use pages_talk::seed_of;

/// The seed that the words ask for, where they are those of this command.
pub(crate) fn record_asked(words: &[String]) -> Option<[u8; 32]>
    ensures { result ≡ record_asked (map string_bytes words.now) }
{
    match words {
        [word] if word.as_str() == "record" => Some([0; 32]),
        [word, option, digits] if word.as_str() == "record" && option.as_str() == "--seed" => {
            seed_of(digits.as_str())
        }
        _ => None,
    }
}
