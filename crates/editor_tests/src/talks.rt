// What editors say one after the other, and what they are answered.
use crate::message::Said;
use site_core_tests::AMPLE;

/// The messages of an editor to a site whose journal weighs at most `limit`, and a line for each
/// answer.
#[derive(Clone, Copy)]
pub struct Talk<'a> {
    pub limit: u64,
    /// What is said first, again and again; of its answers the last is told.
    pub often: Option<Often<'a>>,
    pub said: &'a [Said<'a>],
    pub told: &'a str,
}

/// A message about one file, and how often it is said.
#[derive(Clone, Copy)]
pub struct Often<'a> {
    pub method: &'a str,
    /// How many bytes its body has.
    pub size: usize,
    pub times: u32,
}

pub const TALKS: [Talk<'static>; 10] = [
    // Files are put and deleted.
    Talk {
        limit: AMPLE,
        often: None,
        said: &[
            Said("PUT", "/_editor/files/a.jsp", b"hi"),
            Said("PUT", "/_editor/files/a.jsp", b""),
            Said("DELETE", "/_editor/files/b/c%20d.txt", b""),
            Said("DELETE", "/_editor/files/none", b"\xff"),
        ],
        told: "200 OK: draft 1\n200 OK: draft 2\n200 OK: draft 3\n200 OK: draft 4\n",
    },
    // A path stands for itself.
    Talk {
        limit: AMPLE,
        often: None,
        said: &[
            Said("PUT", "/_editor/files/", b""),
            Said("PUT", "/_editor/files/a/../b", b""),
            Said("PUT", "/_editor/files/%2e/b", b""),
            Said("DELETE", "/_editor/files/a//b", b""),
            Said("DELETE", "/_editor/files/%2Fb", b""),
            Said("DELETE", "/_editor/files/%ff", b""),
            Said("PUT", "/_editor/files/%c3%a4%2Fb", b""),
        ],
        told: "400 Bad Request: BadPath\n400 Bad Request: BadPath\n400 Bad Request: BadPath\n400 Bad Request: BadPath\n400 Bad Request: BadPath\n400 Bad Request: BadPath\n200 OK: draft 1\n",
    },
    // Faults of a draft come in their order.
    Talk {
        limit: AMPLE,
        often: None,
        said: &[
            Said("PUT", "/_editor/files/..?", b"\xff"),
            Said("PATCH", "/_editor/files/..", b"\xff"),
            Said("PUT", "/_editor/files/..", b"\xff"),
            Said("PUT", "/_editor/files/a", b"\xff"),
            Said("PUT", "/_editor/files/a", b"\xc3\xa4"),
        ],
        told: "400 Bad Request: BadMessage\n400 Bad Request: BadMessage\n400 Bad Request: BadPath\n400 Bad Request: NotUtf8\n200 OK: draft 1\n",
    },
    // A draft is published, and then empty.
    Talk {
        limit: AMPLE,
        often: None,
        said: &[
            Said("PUT", "/_editor/files/a.jsp", b"hi"),
            Said("POST", "/_editor/publish", b""),
            Said("POST", "/_editor/publish", b"x"),
            Said("DELETE", "/_editor/files/a.jsp", b""),
        ],
        told: "200 OK: draft 1\n200 OK: version 1\n200 OK: version 2\n200 OK: draft 1\n",
    },
    // A base has to be the latest version.
    Talk {
        limit: AMPLE,
        often: None,
        said: &[
            Said("PUT", "/_editor/files/a.jsp", b"hi"),
            Said("POST", "/_editor/publish?base=1", b""),
            Said("PUT", "/_editor/files/b.jsp", b"hi"),
            Said("POST", "/_editor/publish?base=0", b""),
            Said("POST", "/_editor/publish?base=0", b""),
            Said("POST", "/_editor/publish?base=000000000000000001", b""),
        ],
        told: "200 OK: draft 1\n409 Conflict: Stale 0\n200 OK: draft 2\n200 OK: version 1\n409 Conflict: Stale 1\n200 OK: version 2\n",
    },
    // What no editor takes is a bad message.
    Talk {
        limit: AMPLE,
        often: None,
        said: &[
            Said("POST", "/_editor/publish?base=x", b""),
            Said("POST", "/_editor/publish?base=", b""),
            Said("POST", "/_editor/publish?base=0000000000000000000", b""),
            Said("POST", "/_editor/publish?", b""),
            Said("POST", "/_editor/publi%73h", b""),
            Said("POST", "/_editor/files/a", b""),
            Said("PUT", "/_editor/publish", b""),
            Said("GET", "/_editor/files/a", b""),
        ],
        told: "400 Bad Request: BadMessage\n400 Bad Request: BadMessage\n400 Bad Request: BadMessage\n400 Bad Request: BadMessage\n400 Bad Request: BadMessage\n400 Bad Request: BadMessage\n400 Bad Request: BadMessage\n400 Bad Request: BadMessage\n",
    },
    // A full journal leaves the draft.
    Talk {
        limit: 200,
        often: None,
        said: &[
            Said("POST", "/_editor/publish", b""),
            Said("PUT", "/_editor/files/a.jsp", b"0123456789"),
            Said("POST", "/_editor/publish", b""),
            Said("DELETE", "/_editor/files/a.jsp", b""),
            Said("POST", "/_editor/publish?base=0", b""),
            Said("POST", "/_editor/publish?base=2", b""),
            Said("DELETE", "/_editor/files/a.jsp", b""),
        ],
        told: "200 OK: version 1\n200 OK: draft 1\n200 OK: version 2\n200 OK: draft 1\n409 Conflict: Stale 2\n503 Service Unavailable: JournalFull 176 0\n200 OK: draft 2\n",
    },
    // A draft has at most 1,024 edits.
    Talk {
        limit: AMPLE,
        often: Some(Often {
            method: "DELETE",
            size: 0,
            times: 1_024,
        }),
        said: &[
            Said("DELETE", "/_editor/files/a", b""),
            Said("PUT", "/_editor/files/a", b"\xff"),
            Said("POST", "/_editor/publish", b""),
            Said("DELETE", "/_editor/files/a", b""),
        ],
        told: "200 OK: draft 1024\n413 Content Too Large: DraftTooLarge\n400 Bad Request: NotUtf8\n200 OK: version 1\n200 OK: draft 1\n",
    },
    // A draft has at most 16,777,216 bytes.
    Talk {
        limit: AMPLE,
        often: Some(Often {
            method: "PUT",
            size: 2_097_152,
            times: 8,
        }),
        said: &[
            Said("PUT", "/_editor/files/a", b"x"),
            Said("PUT", "/_editor/files/a", b""),
        ],
        told: "200 OK: draft 8\n413 Content Too Large: DraftTooLarge\n200 OK: draft 9\n",
    },
    // A tree that is too large leaves the draft.
    Talk {
        limit: AMPLE,
        often: Some(Often {
            method: "PUT",
            size: 1_048_577,
            times: 1,
        }),
        said: &[
            Said("POST", "/_editor/publish?base=1", b""),
            Said("POST", "/_editor/publish", b""),
            Said("PUT", "/_editor/files/a", b"x"),
            Said("POST", "/_editor/publish", b""),
        ],
        told: "200 OK: draft 1\n409 Conflict: Stale 0\n413 Content Too Large: TreeTooLarge FileTooLarge\n200 OK: draft 2\n200 OK: version 1\n",
    },
];
