ghost use Rattle.std.specs.Prelude.{◌≡◌, map, string_bytes};
ghost use Rattle.std.specs.Option.{option_map};
ghost use Rattle.context_talk.specs.Contexts.{words_told};

use pages_talk::seed_of;

/// The word of the names, and the seed that the words ask for, where they are those of this
/// command.
pub(crate) fn words_told(words: &[String]) -> Option<(&str, [u8; 32])>
    ensures { option_map (λ told. (told.0.now, told.1)) result ≡ words_told (map string_bytes words.entry.now) }
{
    match words {
        [word, names] if word.as_str() == "contexts" => Some((names.as_str(), [0; 32])),
        [word, names, option, digits]
            if word.as_str() == "contexts" && option.as_str() == "--seed" => {
            match seed_of(digits.as_str()) {
                Some(seed) => Some((names.as_str(), seed)),
                None => None,
            }
        }
        _ => None,
    }
}
