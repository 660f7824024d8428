ghost use Rattle.std.specs.Prelude.{◌≡◌, ◌≢◌, ◌≤◌, ◌+◌, is_some, true, None, OnErr, IfOk, map, option_map};
ghost use Rattle.std.specs.Prelude.{string_bytes};
ghost use Rattle.context_names.specs.Names.{names_in};
ghost use Rattle.edges.specs.Faults.{Rose};
ghost use Rattle.site_words.specs.Invariants.{AllRest};
ghost use Rattle.pages_serve.specs.Rounds.{AreRounds, IsOfRounds};
ghost use Rattle.serve_words.specs.Words.{count_of, settings_asked};

use crate::next_round::onward;
use crate::notice::announce;
use crate::pages_round::serve_round;
use crate::platform::Platform;
use crate::several::serve_contexts;
use crate::threads::can_run;
use crate::unmarked::without_rounds;
use compiled_pages::Made;
use context_names::read_names;
use contexts::CONTEXT_JOURNAL_LIMIT;
use edges::{Accept, Bind, Clocks, Failed, OpenGate, Sink};
use pg_value::Attrs;
use serve_words::{Asked, Settings, settings_asked};
use site_core::{Site, SiteSettings, start};
use site_rounds::Listeners;
use site_words::JOURNAL_LIMIT;
use source_tree::Tree;
use std::alloc::{AllocError, Global};
use std::sync::Wait;
use std::thread::Threads;

/// Serves a new site without files on two ports: to readers by as many workers as the words say,
/// and by one more to editors; and on a third, where the words name one, by one more to those who
/// are shown drafts. The answer is the program's status: 1 for other words, 7 where a listener
/// can't be had, 8 where the workers can't have a thread each, 5 where memory ran out.
/// Otherwise it isn't meant to end. What it has to say at the start goes to `notices`, and the
/// journal of each round to `journals`.
pub fn serve<R: Threads + Wait + Sync, B: Bind, W: Clocks + Sync, J: Sink, K: Sink>(
    platform: Platform<'_, R, W>,
    words: &[String],
    bind: &mut B,
    journals: &mut J,
    notices: &mut K,
) -> u8
    ensures words { settings_asked (map string_bytes words.now) ≡ None → result ≡ 1 }
    ensures only_words { result ≡ 1 → settings_asked (map string_bytes words.now) ≡ None }
    ensures silent { result ≡ 1 → (bind.new ≡ bind.old) × (journals.new ≡ journals.old) × (notices.new
        ≡ notices.old) }
    ensures bound { result ≡ 7 → Rose (B.faults bind.old) (B.faults bind.new) }
    ensures statuses { result ≢ 1 → result ≢ 7 → result ≢ 8 → result ≡ 5 }

    // What the journals have comes of rounds in which each pass did what connections do of those
    // for whom it is.
    ensures rounds { IsOfRounds (J.taken journals.old) (J.taken journals.new) (J.faults journals.old)
        (J.faults journals.new) }
{
    let Some(Asked { settings, contexts }) = settings_asked(words) else {
        return 1;
    };
    let Ok(listeners) = listeners_of(bind, &settings) else {
        return 7;
    };
    if !can_run(platform.rt, usize::from(passes_of(&settings)) - 1) {
        return 8;
    }
    match contexts {
        Some(names) => among(platform, names, &settings, listeners, notices),
        None => alone(platform, &settings, listeners, journals, notices),
    }
}

// Serves one site, round by round.
fn alone<R: Threads + Wait + Sync, A: Accept + Sync + Drop, W: Clocks + Sync, J: Sink, K: Sink>(
    platform: Platform<'_, R, W>,
    settings: &Settings,
    listeners: Listeners<A>,
    journals: &mut J,
    notices: &mut K,
) -> u8
    requires { settings.now.workers + count_of settings.now.preview_port ≤ 63 }
    ensures status { result ≡ 5 }
    ensures rounds { IsOfRounds (J.taken journals.old) (J.taken journals.new) (J.faults journals.old)
        (J.faults journals.new) }
{
    let Ok(site) = site_of(platform.alloc, settings) else {
        return 5;
    };
    announce(platform.alloc, settings, JOURNAL_LIMIT, notices);
    rounds(platform, site, listeners, journals)
}

// Serves a site for each of these names, joined by commas.
fn among<R: Threads + Wait + Sync, A: Accept + Sync + Drop, W: Clocks + Sync, K: Sink>(
    platform: Platform<'_, R, W>,
    names: &str,
    settings: &Settings,
    listeners: Listeners<A>,
    notices: &mut K,
) -> u8
    requires names { is_some (names_in names.now) ≡ true }
    requires few { settings.now.workers ≤ 63 }
    ensures { result ≡ 5 }
{
    let Ok(Some(names)) = read_names(platform.alloc, names) else {
        return 5;
    };
    announce(platform.alloc, settings, CONTEXT_JOURNAL_LIMIT, notices);
    let listeners = without_rounds(listeners);
    for _ in platform.rt.forever() {
        if serve_contexts(platform, &names, settings, &listeners).is_err() {
            return 5;
        }
    }
    unreachable!()
}

// Serves one round after the other, and writes the journal of each. It ends where memory runs out.
// Where drafts are shown there are no rounds.
fn rounds<R: Threads + Wait + Sync, A: Accept + Sync + Drop, W: Clocks + Sync, J: Sink>(
    platform: Platform<'_, R, W>,
    mut site: Site<Made>,
    mut listeners: Listeners<A>,
    journals: &mut J,
) -> u8
    requires { AllRest site.opening site.history }
    ensures status { result ≡ 5 }
    ensures rounds { AreRounds (is_some listeners.previews) site (J.taken journals.old) (J.taken journals.new)
        (J.faults journals.old) (J.faults journals.new) }
{
    for _ in platform.rt.forever() {
        match serve_round(platform, site, OpenGate, &listeners) {
            Ok(after) => site = onward(platform.alloc, after, journals),
            Err(AllocError) => return 5,
        }
        listeners.readers.renew();
        listeners.editors.renew();
    }
    unreachable!()
}

// All listeners, each bound to the port of its audience.
fn listeners_of<B: Bind>(bind: &mut B, settings: &Settings) -> Result<Listeners<B::On>, Failed>
    ensures cause { OnErr result (Rose (B.faults bind.old) (B.faults bind.new)) }
    ensures readers { IfOk result (λ on. B.bound_to on.readers ≡ settings.now.port) }
    ensures editors { IfOk result (λ on. B.bound_to on.editors ≡ settings.now.editor_port) }
    ensures previews { IfOk result (λ on. option_map B.bound_to on.previews ≡ settings.now.preview_port) }
{
    let rounds = settings.rounds;
    let readers = bind.bind(settings.port, rounds.map(|rounds| rounds.readers))?;
    let editors = bind.bind(settings.editor_port, rounds.map(|rounds| rounds.editors))?;
    let previews = match settings.preview_port {
        Some(port) => Some(bind.bind(port, None)?),
        None => None,
    };
    Ok(Listeners {
        readers,
        editors,
        previews,
    })
}

// How many passes it has: one for each worker, one for editors, and one for previews where there
// are any.
fn passes_of(settings: &Settings) -> u8
    requires { settings.now.workers + count_of settings.now.preview_port ≤ 63 }
    ensures { result ≡ settings.now.workers + 1 + count_of settings.now.preview_port }
{
    match settings.preview_port {
        Some(_) => settings.workers + 2,
        None => settings.workers + 1,
    }
}

// The site: it has no files.
#[inline(never)]
fn site_of(alloc: Global, settings: &Settings) -> Result<Site<Made>, AllocError>
    requires { settings.now.workers + count_of settings.now.preview_port ≤ 63 }
    ensures rest { IfOk result (λ site. AllRest site.opening site.history) }
    ensures passes { IfOk result (λ site. site.opening.passes
        ≡ settings.now.workers + 1 + count_of settings.now.preview_port) }
{
    // An array goes through a variable into a struct that is handed on: the prover doesn't follow
    // it there otherwise.
    let seed = settings.seed;
    let of_site = SiteSettings {
        seed,
        limit: JOURNAL_LIMIT,
        passes: passes_of(settings),
        idle: settings.idle,
    };
    let app = Attrs::empty(alloc);
    let tree = Tree::new(alloc);
    start(alloc, of_site, app, tree)
}
