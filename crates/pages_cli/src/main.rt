//! The program `pages`: a page container, over standard input and output and over ports of this
//! machine.
//!
//! `pages serve --port P --editor-port E --workers W [--seed HEX] [--idle SECONDS] [--round N
//! --editor-round M] [--preview-port V] [--contexts NAMES]` serves a site without files at
//! 127.0.0.1: W workers answer readers on P, one answers editors on E, and one shows drafts on V.
//! An option and its value may also stand in one word, as `--port=80`. With rounds it writes a
//! journal behind each and goes on with an empty one. With names it serves a site for each, as
//! `contexts` does, without rounds, drafts that are shown, or an idle time. Its status is 7 where a
//! port can't be had, and 8 where the workers can't have a thread each; otherwise it isn't meant to
//! end. `pages play [--seed HEX]` answers the requests that it reads from standard input, and
//! writes the answers to standard output. Its status is 0 where the input ended between requests, a
//! request asked to close, a response broke off or 65,536 requests were answered, 2 where the input
//! shows a fault. `pages contexts NAMES [--seed HEX]` does the same over several sites, whose
//! names, joined by commas, begin the targets. `pages preview [--seed HEX]` does so too, but a page
//! is shown with the edits that the connection has made, and nobody publishes. `pages record
//! [--seed HEX]` reads a list of connections, each a line with the number of its bytes and then
//! these, and writes the journal of each, one behind the other: status 0, or 2 where the input is
//! no such list. `pages check PATH` reads the text of a page, and writes `ok` or the line of its
//! fault: status 0 or 6. `pages load N` talks with a generated site of N pages in memory, and
//! writes five numbers of that. `pages --help` says how the commands are called, and `pages
//! --version` which version this is. For other words the status is 1, and how each is called goes
//! to standard error; where reading or writing failed the status is 3 and 4, and where memory ran
//! out it is 5.
#![tactic(auto)]

ghost use Rattle.std.specs.Prelude.{◌≡◌, ◌≢◌, ◌<◌, None, codes, false, map, string_bytes};
ghost use Rattle.std.specs.Str.{bytes_eq};
ghost use Rattle.pages_cli.specs.Words.{AsksNothing, first_of};
ghost use Rattle.serve_words.specs.Words.{settings_asked};

use context_talk::play_contexts;
use edges::{ReadSource, Steps, Unseen, WallClock, WallClocks, WriteSink};
use pages_check::check;
use pages_load::load;
use pages_record::play_record;
use pages_serve::{Platform, serve};
use pages_talk::play;
use pages_usage::{help, usage};
use preview::preview_play;
use std::io::ErrorKind;
use std::marker::Brand;
use std::net::{Net, TcpListener, TcpStream};
use std::process::ExitCode;
use std::sync::Wait;
use std::sync::ledger::{Blank, Ledger};
use std::thread::Threads;
use std::time::Clock;
use std::{env, io};
use tcp_edges::TcpBind;

/// Which version of the program this is.
const VERSION: &str = "pages 1.0.0";

// No clause speaks of this: that `run` gets the real words and runtime, and that its status becomes
// the program's, is trusted; the stored run of this program and `tools/commands` try it.
fn main(rt: HostRuntime) -> ExitCode {
    let status = match words(&rt) {
        Ok(words) if is_alone(&words, "--help") => shown(&rt),
        Ok(words) if is_alone(&words, "--version") => versioned(&rt),
        Ok(words) => run::<Brand, _>(&rt, &rt, &words, Blank::new(1)),
        Err(status) => status,
    };
    if status != 0 {
        let _ = eprintln!(rt; "pages: status {status}");
    }
    if status == 1 {
        refuse(&rt);
    }
    ExitCode::from(status)
}

// Whether this is the only word.
fn is_alone(words: &[String], name: &str) -> bool {
    words.len() == 1 && first(words) == name
}

// Writes the help to standard output, and answers the status: 4 where that failed, 5 where memory
// ran out.
fn shown(rt: &HostRuntime) -> u8 {
    let Ok(text) = help(rt.alloc()) else {
        return 5;
    };
    let text = text.as_str();
    if print!(rt; "{text}").is_err() { 4 } else { 0 }
}

// Says on standard output which version this is, and answers the status.
fn versioned(rt: &HostRuntime) -> u8 {
    if println!(rt; "{VERSION}").is_err() {
        4
    } else {
        0
    }
}

// Says on standard error how the commands are called, unless memory runs out.
fn refuse(rt: &HostRuntime) {
    if let Ok(text) = usage(rt.alloc()) {
        let text = text.as_str();
        let _ = eprint!(rt; "{text}");
    }
}

// The words of the command, without the program's name; or else the status: 5 where memory ran out,
// 1 where one of them is no text.
fn words(rt: &HostRuntime) -> Result<Vec<String>, u8> {
    let given = match env::args(rt) {
        Ok(given) => given,
        Err(error) if error.kind() == ErrorKind::OutOfMemory => return Err(5),
        Err(_) => return Err(1),
    };
    let mut words = Vec::new(rt.alloc());
    for word in given.skip(1) {
        let Ok(()) = words.push(word) else {
            return Err(5);
        };
    }
    Ok(words)
}

// Runs the command that the first word names, and answers the program's status. A server runs on
// `system`.
fn run<
    N: Ledger,
    R: Threads + Wait + Net<Listener = TcpListener, Stream = TcpStream> + Clock + Sync,
>(rt: &HostRuntime, system: &R, words: &[String], blank: Blank) -> u8
    requires name { blank.name ≡ N.name }
    requires parts { blank.parts ≡ N.parts }
    requires some { 0 < N.parts }
    ensures refused { AsksNothing (map string_bytes words.now) → result ≢ 5 → result ≡ 1 }
    ensures only_refused { result ≡ 1 → AsksNothing (map string_bytes words.now) }
{
    match first(words) {
        "serve" => served(rt, system, words),
        _ => streamed::<N>(rt, words, blank),
    }
}

// Runs a command over standard input and output. It isn't inlined, so that what those keep doesn't
// stand on the stack of a server.
#[inline(never)]
fn streamed<N: Ledger>(rt: &HostRuntime, words: &[String], blank: Blank) -> u8
    requires name { blank.name ≡ N.name }
    requires parts { blank.parts ≡ N.parts }
    requires some { 0 < N.parts }
    requires other { bytes_eq (first_of (map string_bytes words.now)) (codes "serve") ≡ false }
    ensures refused { AsksNothing (map string_bytes words.now) → result ≢ 5 → result ≡ 1 }
    ensures only_refused { result ≡ 1 → AsksNothing (map string_bytes words.now) }
{
    let alloc = rt.alloc();
    let mut source = ReadSource::new(rt.reader());
    let mut sink = WriteSink::new(io::writer(rt));
    let mut clock = WallClock::new(rt);
    let mut steps = Steps::<Unseen<N>>::unseen(blank);
    match first(words) {
        "check" => check(alloc, words, &mut source, &mut sink, &mut steps),
        "contexts" => play_contexts(alloc, words, &mut source, &mut sink, &mut clock, &mut steps),
        "load" => load(alloc, words, &mut sink, &mut steps),
        "preview" => preview_play(alloc, words, &mut source, &mut sink, &mut steps),
        "record" => play_record(alloc, words, &mut source, &mut sink, &mut clock, &mut steps),
        _ => play(alloc, words, &mut source, &mut sink, &mut clock, &mut steps),
    }
}

// Serves over TCP, says on standard error where, and writes the journals of rounds to standard
// output.
fn served<R: Threads + Wait + Net<Listener = TcpListener, Stream = TcpStream> + Clock + Sync>(
    rt: &HostRuntime,
    system: &R,
    words: &[String],
) -> u8
    ensures words { settings_asked (map string_bytes words.now) ≡ None → result ≡ 1 }
    ensures only_words { result ≡ 1 → settings_asked (map string_bytes words.now) ≡ None }
{
    let clocks = WallClocks { rt };
    let platform = Platform {
        rt: system,
        alloc: rt.alloc(),
        clocks: &clocks,
    };
    serve(
        platform,
        words,
        &mut TcpBind::new(system, rt.alloc()),
        &mut WriteSink::new(io::writer(rt)),
        &mut WriteSink::new(rt.stderr()),
    )
}

// The first word, or an empty text where there is none.
fn first(words: &[String]) -> &str
    ensures { result.now ≡ first_of (map string_bytes words.now) }
{
    match words {
        [word, ..] => word.as_str(),
        [] => "",
    }
}
