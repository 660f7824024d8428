use clap::{Arg, ArgAction, Command};
use std::alloc::{AllocError, Global};

/// How much is said of a command.
#[derive(Clone, Copy)]
enum Told {
    Usage,
    Help,
}

/// How each command is called, a line each.
pub fn usage(alloc: Global) -> Result<String, AllocError> {
    all(alloc, Told::Usage)
}

/// What each command does, how it is called, and its options.
pub fn help(alloc: Global) -> Result<String, AllocError> {
    all(alloc, Told::Help)
}

fn all(alloc: Global, how: Told) -> Result<String, AllocError> {
    let mut text = String::new(alloc);
    add(&mut text, serve(alloc)?, how)?;
    add(&mut text, play(alloc)?, how)?;
    add(&mut text, preview(alloc)?, how)?;
    add(&mut text, record(alloc)?, how)?;
    add(&mut text, contexts(alloc)?, how)?;
    add(&mut text, check(alloc)?, how)?;
    add(&mut text, load(alloc)?, how)?;
    Ok(text)
}

// Adds what is said of a command.
fn add(text: &mut String, mut command: Command<'_>, how: Told) -> Result<(), AllocError> {
    let said = match how {
        Told::Usage => command.render_usage()?,
        Told::Help => command.render_help()?,
    };
    text.push_str(said.as_str())?;
    text.push('\n')
}

fn serve<'a>(alloc: Global) -> Result<Command<'a>, AllocError> {
    command(alloc, "pages serve")
        .about("Serves a site at 127.0.0.1, to readers and to editors")
        .arg(option(alloc, "port", "P", "The readers' port").required(true))?
        .arg(option(alloc, "editor-port", "E", "The editors' port").required(true))?
        .arg(option(alloc, "preview-port", "V", "Where drafts are shown"))?
        .arg(option(alloc, "contexts", "NAMES", "A site for each of these names"))?
        .arg(option(alloc, "workers", "W", "How many readers at once, up to 63").required(true))?
        .arg(option(
            alloc,
            "seed",
            "HEX",
            "What sessions are named by, 64 digits",
        ))?
        .arg(option(alloc, "idle", "SECONDS", "How long an unused session lasts"))?
        .arg(option(alloc, "round", "N", "Readers' connections to a journal"))?
        .arg(option(
            alloc,
            "editor-round",
            "M",
            "Editors' connections to a journal",
        ))
}

fn play<'a>(alloc: Global) -> Result<Command<'a>, AllocError> {
    command(alloc, "pages play")
        .about("Answers the requests on standard input")
        .arg(option(
            alloc,
            "seed",
            "HEX",
            "What sessions are named by, 64 digits",
        ))
}

fn preview<'a>(alloc: Global) -> Result<Command<'a>, AllocError> {
    command(alloc, "pages preview")
        .about("Answers the requests on standard input, with their own edits")
        .arg(option(
            alloc,
            "seed",
            "HEX",
            "What sessions are named by, 64 digits",
        ))
}

fn record<'a>(alloc: Global) -> Result<Command<'a>, AllocError> {
    command(alloc, "pages record")
        .about("Writes the journals of the connections on standard input")
        .arg(option(
            alloc,
            "seed",
            "HEX",
            "What sessions are named by, 64 digits",
        ))
}

fn contexts<'a>(alloc: Global) -> Result<Command<'a>, AllocError> {
    command(alloc, "pages contexts")
        .about("Answers the requests on standard input to several sites")
        .arg(value(alloc, "NAMES", "The sites' names, joined by commas"))?
        .arg(option(
            alloc,
            "seed",
            "HEX",
            "What sessions are named by, 64 digits",
        ))
}

fn check<'a>(alloc: Global) -> Result<Command<'a>, AllocError> {
    command(alloc, "pages check")
        .about("Says the first fault of the page on standard input")
        .arg(value(alloc, "PATH", "The page's path in its site"))
}

fn load<'a>(alloc: Global) -> Result<Command<'a>, AllocError> {
    command(alloc, "pages load")
        .about("Talks with a made site in memory, and counts")
        .arg(value(alloc, "N", "How many pages it has, up to 1000"))
}

// A command without clap's own `--help`.
fn command<'a>(alloc: Global, name: &'a str) -> Command<'a> {
    Command::new(alloc, name).disable_help_flag(true)
}

// An option with a value, for the text alone. Its name stands again where the words are read: in
// `serve_words`, and in each command that takes `--seed`.
fn option<'a>(alloc: Global, name: &'a str, value: &'a str, help: &'a str) -> Arg<'a> {
    Arg::new(alloc, name)
        .long(name)
        .value_name(value)
        .help(help)
        .action(ArgAction::Set)
}

// A word that has to stand there.
fn value<'a>(alloc: Global, name: &'a str, help: &'a str) -> Arg<'a> {
    Arg::new(alloc, name)
        .required(true)
        .help(help)
        .action(ArgAction::Set)
}
