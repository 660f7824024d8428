use std::time::Instant;

/// How many seconds a peer may be silent before a request.
pub(crate) const BETWEEN_SECONDS: u64 = 5;

/// How many seconds a peer may be silent inside a request, how many it has for the head, and how
/// many beyond its bytes.
pub(crate) const INSIDE_SECONDS: u64 = 20;

/// How many bytes of a request have to come in a second, on the whole.
const LEAST_BYTES: u64 = 500;

/// A request that is under way.
#[derive(Clone, Copy, Drop)]
pub(crate) struct Begun {
    // When more of it was first waited for.
    since: Option<Instant>,
    bytes: u64,
    end: HeadEnd,
}

impl Begun {
    /// A request of which these bytes came.
    pub(crate) fn new(bytes: &[u8]) -> Self {
        let mut begun = Begun {
            since: None,
            bytes: 0,
            end: HeadEnd { matched: 0 },
        };
        begun.note(bytes);
        begun
    }

    /// Notes that these bytes came.
    pub(crate) fn note(&mut self, bytes: &[u8]) {
        self.bytes = self.bytes.saturating_add(bytes.len() as u64);
        self.end.note(bytes);
    }

    /// How many seconds more the peer may be silent, whose time begins when more is first waited
    /// for. None where it is over.
    pub(crate) fn patience(&mut self, now: Instant) -> Option<u64> {
        let since = self.since.unwrap_or(now);
        self.since = Some(since);
        let passed = now.duration_since(since).as_secs();
        let given = if self.end.is_reached() {
            (self.bytes / LEAST_BYTES).saturating_add(INSIDE_SECONDS)
        } else {
            INSIDE_SECONDS
        };
        let left = given.saturating_sub(passed);
        if left == 0 {
            return None;
        }
        Some(left.min(INSIDE_SECONDS))
    }
}

/// How much of the end of a head came: a line's end, and an empty line.
#[derive(Clone, Copy, Drop)]
struct HeadEnd {
    matched: usize,
}

const END: [u8; 4] = *b"\r\n\r\n";

impl HeadEnd {
    // Notes that these bytes came. Once the whole end came, what comes behind it changes nothing.
    fn note(&mut self, bytes: &[u8]) {
        // Most pieces end so: each is a whole request without a body.
        if bytes.ends_with(&END) {
            self.matched = END.len();
            return;
        }
        for byte in bytes {
            let Some(wanted) = END.get(self.matched) else {
                return;
            };
            self.matched = if byte == wanted {
                self.matched + 1
            } else if *byte == b'\r' {
                1
            } else {
                0
            };
        }
    }

    fn is_reached(&self) -> bool {
        self.matched >= END.len()
    }
}
