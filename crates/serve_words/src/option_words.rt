ghost use Rattle.std.specs.Prelude.{◌≡◌, ◌≤◌, ◌<◌, ◌+◌, ◌&&◌, is_none, is_some, true, map};
ghost use Rattle.std.specs.Prelude.{string_bytes, IfSome, length, option_map};
ghost use Rattle.context_names.specs.Names.{names_in};
ghost use Rattle.serve_words.specs.Words.{FewWorkers, all_said, asked_of, count_of, nothing_given};
ghost use Rattle.serve_words.specs.Words.{number_up_to, once, read, rounds_of};
ghost use Rattle.serve_words.specs.Words.{settings_asked, settings_of, split_at_equals};
ghost use Rattle.serve_words.specs.Words.{stand_together, with_option, with_word};

use crate::given::Given;
use crate::setting::{Asked, Rounds, Settings};
use context_names::tells_names;
use pg_text::whole_number;
use site_words::{IDLE_SECONDS, seed_of};

const MOST_PORT: u64 = 65_535;

const MOST_WORKERS: u64 = 63;

const MOST_IDLE: u64 = 1_000_000_000;

const MOST_ROUND: u64 = 1_000_000;

/// How the words ask to serve, where they are those of this command.
pub fn settings_asked(words: &[String]) -> Option<Asked<'_>>
    ensures value { option_map (λ asked. (asked.settings, option_map (λ names. names.now) asked.contexts)) result
        ≡ settings_asked (map string_bytes words.entry.now) }
    ensures workers { IfSome result (λ asked. (1 ≤ asked.settings.workers) × (asked.settings.workers ≤ 63)) }
    ensures previews { IfSome result (λ asked. asked.settings.workers + count_of asked.settings.preview_port ≤ 63) }
    ensures contexts { IfSome result (λ asked.
        IfSome asked.contexts (λ names. is_some (names_in names.now) ≡ true)) }
{
    match words {
        [word, options @ ..] if word.as_str() == "serve" => {
            let (given, contexts) = read(options, nothing_given(), None)?;
            asked_of(&given, contexts)
        }
        _ => None,
    }
}

// No option was read yet.
fn nothing_given() -> Given
    ensures value { result ≡ nothing_given }
    ensures few { FewWorkers result }
{
    Given {
        port: None,
        editor_port: None,
        preview_port: None,
        workers: None,
        seed: None,
        idle: None,
        round: None,
        editor_round: None,
    }
}

// What the words say beside what was given before.
fn read<'a>(
    words: &'a [String],
    given: Given,
    names: Option<&'a str>,
) -> Option<(Given, Option<&'a str>)>
    requires few { FewWorkers given }
    requires names { IfSome names (λ names. is_some (names_in names.now) ≡ true) }
    ensures value { option_map (λ told. (told.0, option_map (λ names. names.now) told.1)) result
        ≡ read (map string_bytes words.entry.now) (given, option_map (λ names. names.now) names.entry) }
    ensures few { IfSome result (λ told. FewWorkers told.0) }
    ensures names { IfSome result (λ told. IfSome told.1 (λ names. is_some (names_in names.now) ≡ true)) }
{
    match words {
        [] => Some((given, names)),
        [word, rest @ ..] => match split_at_equals(word.as_str()) {
            Some((name, value)) => {
                let (given, names) = with_word(name, value, given, names)?;
                read(rest, given, names)
            }
            None => match rest {
                [] => None,
                [value, rest @ ..] => {
                    let (given, names) = with_word(word.as_str(), value.as_str(), given, names)?;
                    read(rest, given, names)
                }
            },
        },
    }
}

// The name and the value that stand before and behind the first `=` of a word.
fn split_at_equals(word: &str) -> Option<(&str, &str)>
    ensures { option_map (λ split. (split.0.now, split.1.now)) result ≡ split_at_equals word.entry.now }
{
    match word.split_once('=') {
        Some((name, value)) => Some((name, value)),
        None => None,
    }
}

// The option of this name says this, too, be it the names of contexts or another one.
fn with_word<'a>(
    name: &str,
    value: &'a str,
    given: Given,
    names: Option<&'a str>,
) -> Option<(Given, Option<&'a str>)>
    requires few { FewWorkers given }
    requires names { IfSome names (λ names. is_some (names_in names.now) ≡ true) }
    ensures value { option_map (λ told. (told.0, option_map (λ names. names.now) told.1)) result
        ≡ with_word name.now value.entry.now (given, option_map (λ names. names.now) names.entry) }
    ensures few { IfSome result (λ told. FewWorkers told.0) }
    ensures names { IfSome result (λ told. IfSome told.1 (λ names. is_some (names_in names.now) ≡ true)) }
{
    if name == "--contexts" {
        if names.is_some() || !tells_names(value) {
            return None;
        }
        return Some((given, Some(value)));
    }
    let given = with_option(name.as_bytes(), value.as_bytes(), given)?;
    Some((given, names))
}

// The option of this name says this, too.
fn with_option(name: &[u8], value: &[u8], mut given: Given) -> Option<Given>
    requires few { FewWorkers given }
    ensures value { result ≡ with_option name.now value.now given }
    ensures few { IfSome result FewWorkers }
{
    if name == b"--port".as_slice() {
        given.port = Some(once(given.port, port_in(value))?);
    } else if name == b"--editor-port".as_slice() {
        given.editor_port = Some(once(given.editor_port, port_in(value))?);
    } else if name == b"--preview-port".as_slice() {
        given.preview_port = Some(once(given.preview_port, port_in(value))?);
    } else if name == b"--workers".as_slice() {
        given.workers = Some(once(given.workers, workers_in(value))?);
    } else if name == b"--seed".as_slice() {
        given.seed = Some(once(given.seed, seed_of(value))?);
    } else if name == b"--idle".as_slice() {
        given.idle = Some(once(given.idle, number_up_to(MOST_IDLE, value))?);
    } else if name == b"--round".as_slice() {
        given.round = Some(once(given.round, round_in(value))?);
    } else if name == b"--editor-round".as_slice() {
        given.editor_round = Some(once(given.editor_round, round_in(value))?);
    } else {
        return None;
    }
    Some(given)
}

// An option stands only once.
fn once<T: Copy>(before: Option<T>, value: Option<T>) -> Option<T>
    ensures { result ≡ once before value }
{
    match before {
        Some(_) => None,
        None => value,
    }
}

fn port_in(text: &[u8]) -> Option<u16>
    ensures { result ≡ number_up_to 65535 text.now }
{
    let number = number_up_to(MOST_PORT, text)?;
    Some(number as u16)
}

fn workers_in(text: &[u8]) -> Option<u8>
    ensures value { result ≡ number_up_to 63 text.now }
    ensures few { IfSome result (λ number. (1 ≤ number) × (number ≤ 63)) }
{
    let number = number_up_to(MOST_WORKERS, text)?;
    Some(number as u8)
}

fn round_in(text: &[u8]) -> Option<u32>
    ensures { result ≡ number_up_to 1000000 text.now }
{
    let number = number_up_to(MOST_ROUND, text)?;
    Some(number as u32)
}

// The number that a text writes, where it is from one to the most.
fn number_up_to(most: u64, text: &[u8]) -> Option<u64>
    ensures value { result ≡ number_up_to most text.now }
    ensures few { IfSome result (λ number. (1 ≤ number) × (number ≤ most)) }
{
    let number = whole_number(text)?;
    if number < 1 || number > most {
        return None;
    }
    Some(number)
}

// The rounds: both numbers are given, or neither.
fn rounds_of(readers: Option<u32>, editors: Option<u32>) -> Option<Option<Rounds>>
    ensures { result ≡ rounds_of readers editors }
{
    match (readers, editors) {
        (None, None) => Some(None),
        (Some(readers), Some(editors)) => Some(Some(Rounds { readers, editors })),
        _ => None,
    }
}

// How options ask to serve, beside the names of contexts.
fn asked_of<'a>(given: &Given, contexts: Option<&'a str>) -> Option<Asked<'a>>
    requires few { FewWorkers given.now }
    requires names { IfSome contexts (λ names. is_some (names_in names.now) ≡ true) }
    ensures value { option_map (λ asked. (asked.settings, option_map (λ names. names.now) asked.contexts)) result
        ≡ asked_of (given.now, option_map (λ names. names.now) contexts.entry) }
    ensures workers { IfSome result (λ asked. (1 ≤ asked.settings.workers) × (asked.settings.workers ≤ 63)) }
    ensures previews { IfSome result (λ asked. asked.settings.workers + count_of asked.settings.preview_port ≤ 63) }
    ensures contexts { IfSome result (λ asked.
        IfSome asked.contexts (λ names. is_some (names_in names.now) ≡ true)) }
{
    if contexts.is_some() && !can_have_contexts(given) {
        return None;
    }
    let settings = settings_of(given)?;
    Some(Asked { settings, contexts })
}

// Whether nothing was said that contexts can't have: each has sessions, a journal and a port of its
// own.
fn can_have_contexts(given: &Given) -> bool
    ensures { result ≡ (is_none given.now.idle && (is_none given.now.round && (is_none given.now.editor_round
        && is_none given.now.preview_port))) }
{
    given.idle.is_none()
        && given.round.is_none()
        && given.editor_round.is_none()
        && given.preview_port.is_none()
}

// How options ask to serve: three have to stand there, and all can stand together.
fn settings_of(given: &Given) -> Option<Settings>
    requires { FewWorkers given.now }
    ensures value { result ≡ settings_of given.now }
    ensures workers { IfSome result (λ settings. (1 ≤ settings.workers) × (settings.workers ≤ 63)) }
    ensures previews { IfSome result (λ settings. settings.workers + count_of settings.preview_port ≤ 63) }
{
    let settings = all_said(given)?;
    if !stand_together(&settings) {
        return None;
    }
    Some(settings)
}

// What options say, where the three that have to stand there do.
fn all_said(given: &Given) -> Option<Settings>
    requires { FewWorkers given.now }
    ensures value { result ≡ all_said given.now }
    ensures workers { IfSome result (λ settings. (1 ≤ settings.workers) × (settings.workers ≤ 63)) }
{
    Some(Settings {
        port: given.port?,
        editor_port: given.editor_port?,
        preview_port: given.preview_port,
        workers: given.workers?,
        seed: given.seed.unwrap_or([0; 32]),
        idle: given.idle.unwrap_or(IDLE_SECONDS),
        rounds: rounds_of(given.round, given.editor_round)?,
    })
}

// Whether previews can stand with the rest: they take one of the workers, and there are no rounds.
fn stand_together(settings: &Settings) -> bool
    ensures { result ≡ stand_together settings.now }
{
    settings.preview_port.is_none() || (settings.workers < 63 && settings.rounds.is_none())
}
