use edges::Sink;
use http_out::write;
use serve_words::Settings;
use site_words::PROMISE;
use std::alloc::{AllocError, Global};

/// What the journal takes at the most for a request: all that it is promised, of which its Begin
/// is paid, too.
const GREATEST_REQUEST: u64 = PROMISE;

/// What it takes for a page of twelve letters that keeps a number in a session: its Begin with the
/// session's cookie, a Fetch, and the session's attributes.
const COUNTER_REQUEST: u64 = 333;

/// Says where the site is, how long its journal lasts, and that no seed was given if that is so; or
/// nothing where memory runs out.
#[inline(never)]
pub(crate) fn announce<K: Sink>(alloc: Global, settings: &Settings, limit: u64, notices: &mut K) {
    if let Ok(line) = line(alloc, settings, limit) {
        write(notices, &mut false, line.as_bytes());
    }
}

fn line(alloc: Global, settings: &Settings, limit: u64) -> Result<String, AllocError> {
    let port = settings.port;
    let editor_port = settings.editor_port;
    let least = limit / GREATEST_REQUEST;
    let counters = limit / COUNTER_REQUEST;
    let mut line = String::new(alloc);
    write!(
        line,
        "pages: readers at http://127.0.0.1:{port}/, editors at http://127.0.0.1:{editor_port}/; room for {least} requests at least, {counters} of a page that counts in a session\n"
    )?;
    if let Some(preview_port) = settings.preview_port {
        write!(line, "pages: drafts at http://127.0.0.1:{preview_port}/\n")?;
    }
    if settings.seed == [0; 32] {
        line.push_str(
            "pages: no seed, so anyone can compute the ids of sessions; give one by --seed\n",
        )?;
    }
    Ok(line)
}
