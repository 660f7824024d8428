// What a call of a tag file gives: its body and its fragments.
ghost use Rattle.std.specs.Prelude.{◌≡◌, ◌+◌, ◌<◌, ◌^◌};
ghost use Rattle.page_code.specs.Calls.{body_size, fragments_size};
ghost use Rattle.page_table.specs.Seat.{body_given, fragment_given};
ghost use Rattle.run_parts.specs.Given.{given_of};
ghost use Rattle.run_world.specs.Seats.{call_of};

use page_code::CallBody;
use pg_text::Text;
use run_world::CallSeat;

/// Nothing, a text as it was written, or a code at a place of the caller's.
#[derive(Drop)]
pub enum Given<'a> {
    Nothing,
    Source(&'a Text),
    Code(usize),
}

/// The body that a call gives.
pub fn body_given<'a>(call: &'a CallSeat) -> Given<'a>
    ensures { given_of result ≡ body_given (call_of call.now).body call.now.behind }
{
    match call.body {
        CallBody::Absent => Given::Nothing,
        CallBody::Source(text) => Given::Source(text),
        CallBody::Cells(_) => Given::Code(call.behind),
    }
}

/// The fragment of a name that a call gives.
pub fn fragment_given<'a>(name: &Text, call: &'a CallSeat) -> Given<'a>
    requires within { call.now.behind + (body_size (call_of call.now).body + fragments_size
        (call_of call.now).fragments) < 2 ^ 64 }
    ensures { given_of result ≡ fragment_given name.now (call_of call.now).body (call_of call.now).fragments
        call.now.behind }
{
    let mut at = call.behind + size_of_body(call.body);
    for fragment in call.fragments {
        if name.as_str() == fragment.name.as_str() {
            return Given::Code(at);
        }
        at += fragment.size;
    }
    Given::Nothing
}

// How many cells stand behind a call for its body: none for a body that is absent or a text.
fn size_of_body(body: &CallBody) -> usize
    ensures { result ≡ body_size body.now }
{
    match body {
        CallBody::Absent | CallBody::Source(_) => 0,
        CallBody::Cells(count) => *count,
    }
}
