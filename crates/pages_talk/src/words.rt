ghost use Rattle.std.specs.Prelude.{◌≡◌, map, string_bytes};
ghost use Rattle.pages_talk.specs.Play.{seed_asked};
ghost use Rattle.site_words.specs.Seed.{seed_of};

/// The seed that the words ask for, where they are those of this command.
pub(crate) fn seed_asked(words: &[String]) -> Option<[u8; 32]>
    ensures { result ≡ seed_asked (map string_bytes words.now) }
{
    match words {
        [word] if word.as_str() == "play" => Some([0; 32]),
        [word, option, digits] if word.as_str() == "play" && option.as_str() == "--seed" => {
            seed_of(digits.as_str())
        }
        _ => None,
    }
}

/// The seed that a text is: 64 hexadecimal digits of either case.
pub fn seed_of(text: &str) -> Option<[u8; 32]>
    ensures { result ≡ seed_of text.now }
{
    site_words::seed_of(text.as_bytes())
}
