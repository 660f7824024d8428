// Calls of tag files, and the bodies and fragments that they are given.
ghost use Rattle.std.specs.Prelude.{◌≡◌, ◌+◌, ◌<◌, ◌≤◌, ◌^◌, ℕ, List, Option, length, option_map};
ghost use Rattle.page_code.specs.Calls.{body_size, call_size, fragments_size};
ghost use Rattle.page_code.specs.Fits.{BodyBegins, CodeFits, FragmentsBegin};
ghost use Rattle.page_code.specs.declared.call.CallOut.TheVariants as call_out;
ghost use Rattle.page_machine.specs.Turn.{SeatHolds, Stepped};
ghost use Rattle.page_table.specs.Act.{called_out};
ghost use Rattle.page_table.specs.Calls.{call_entered, call_of as made_call, given_called};
ghost use Rattle.page_table.specs.Checked.{SeatFits};
ghost use Rattle.page_table.specs.Program.{tag_at};
ghost use Rattle.page_table.specs.Seat.{Seat as Seat', code_of, in_tag, source_text};
ghost use Rattle.run_moves.specs.Acted.{Acted};
ghost use Rattle.run_moves.specs.At.{IsRecordsAt, seat_at};
ghost use Rattle.run_moves.specs.Opened.{open_of};
ghost use Rattle.run_parts.specs.Given.{given_by, given_of};
ghost use Rattle.run_world.specs.Known.{Known, ServesSo};
ghost use Rattle.run_world.specs.Programs.{program_of};
ghost use Rattle.run_world.specs.Seats.{call_of};
ghost use Rattle.run_world.specs.Tags.{tag_of};

use crate::turn::{CodeStart, run_code};
use page_code::{CallBody, TagCall};
use pg_text::{Path, Text};
use pg_value::{Attrs, RunFault};
use run_moves::{At, End, Flow, Open, fail, throw, throw_at};
use run_parts::{
    Given, RequestRecords, body_given, copy_out, exports_of, first_frame, fragment_given,
    give_back, nested_changes,
};
use run_world::{CallSeat, Program, Seat, TagProgram, World};
use std::alloc::Global;

// The tag file of this path in a page's unit.
fn tag_at<'a>(program: &'a Program, path: &Path) -> Option<&'a TagProgram>
    ensures { option_map (λ tag. tag_of tag.now) result ≡ tag_at path.now (program_of program.now).tags }
{
    program
        .tags
        .as_slice()
        .iter()
        .find(|tag| path.as_bytes() == tag.path.as_bytes())
}

// How many cells a call passes over.
fn size_of(call: &TagCall) -> usize
    requires { call_size call.now < 2 ^ 64 }
    ensures { result ≡ call_size call.now }
{
    let mut size = match &call.body {
        CallBody::Absent | CallBody::Source(_) => 0,
        CallBody::Cells(count) => *count,
    };
    for fragment in call.fragments.as_slice() {
        size += fragment.size;
    }
    size
}

// Calls a tag file with the values of its attributes. A unit has each one that it calls.
#[cycle(machine)]
#[inline(never)]
pub(crate) fn tag_call<W: World>(
    alloc: Global,
    at: &At,
    records: &mut RequestRecords,
    call: &TagCall,
    opened: &mut Open,
    world: &mut W,
) -> Flow
    requires covered { W.covered world.old }
    requires records { IsRecordsAt at.now records.old }
    requires known { Known W.reached W.stores at.now.served.now world.old }
    requires seat { SeatFits (seat_at at.now) }
    requires holds { SeatHolds (seat_at at.now) (length (W.variables world.old).frames) }
    requires fits { BodyBegins (code_of (seat_at at.now)) (at.now.pc + 1) call.now.body × FragmentsBegin
        (code_of (seat_at at.now)) (at.now.pc + 1 + body_size call.now.body) call.now.fragments }
    requires within { at.now.pc + 1 + call_size call.now < 2 ^ 64 }
    requires filled { length call.now.names ≤ length opened.old.stack }
    ensures covered { W.covered world.new }
    ensures records { IsRecordsAt at.now records.new }
    ensures stepped { Stepped W.reached W.replies (ServesSo W.stores at.now.served.now) (seat_at at.now)
        (λ serving s. called_out serving (seat_at at.now) at.now.cell.place (at.now.pc + 1)
        (call_out.Tag call.now) s (open_of opened.old)) world.old world.new (open_of opened.new) result }
    ensures left { opened.new.left ≡ opened.old.left }
{
    let count = call.names.len();
    let Some(tag) = tag_at(at.seat.program(), &call.path) else {
        opened.stack.drop_top(count);
        return Flow::Go(at.pc + 1 + size_of(call));
    };
    let made = first_frame(
        alloc,
        &tag.decl,
        call.names.as_slice(),
        opened.stack.top(count),
    );
    opened.stack.drop_top(count);
    match made {
        Ok(entries) => {
            let start = TagStart { call, tag, entries };
            enter_call(alloc, at, records, start, opened, world)
        }
        Err(failed) => fail(alloc, failed, &at.cell.place, opened, world),
    }
}

// A call, the tag file that it calls, and the variables with which that one's frame begins.
#[derive(Drop)]
struct TagStart<'a, 'b> {
    call: &'a TagCall,
    tag: &'b TagProgram,
    entries: Attrs,
}

// Runs a tag file's code one level deeper, in a frame of its own.
#[cycle(machine)]
fn enter_call<W: World>(
    alloc: Global,
    at: &At,
    records: &mut RequestRecords,
    start: TagStart,
    opened: &mut Open,
    world: &mut W,
) -> Flow
    requires covered { W.covered world.old }
    requires records { IsRecordsAt at.now records.old }
    requires known { Known W.reached W.stores at.now.served.now world.old }
    requires seat { SeatFits (seat_at at.now) }
    requires holds { SeatHolds (seat_at at.now) (length (W.variables world.old).frames) }
    requires tag { CodeFits (tag_of start.tag.now).code }
    requires fits { BodyBegins (code_of (seat_at at.now)) (at.now.pc + 1) start.call.now.body × FragmentsBegin
        (code_of (seat_at at.now)) (at.now.pc + 1 + body_size start.call.now.body) start.call.now.fragments }
    requires within { at.now.pc + 1 + call_size start.call.now < 2 ^ 64 }
    ensures covered { W.covered world.new }
    ensures records { IsRecordsAt at.now records.new }
    ensures stepped { Stepped W.reached W.replies (ServesSo W.stores at.now.served.now) (seat_at at.now)
        (λ serving s. call_entered at.now.cell.place
        (made_call (tag_of start.entry.tag.now) start.entry.call.now (at.now.pc + 1) start.entry.entries s)
        start.entry.entries (seat_at at.now) (at.now.pc + 1 + call_size start.entry.call.now) s (open_of opened.old))
        world.old world.new (open_of opened.new) result }
    ensures left { opened.new.left ≡ opened.old.left }
{
    let TagStart { call, tag, entries } = start;
    let Some(left) = opened.left.checked_sub(1) else {
        return throw(alloc, RunFault::TooDeep, &at.cell.place, opened, world);
    };
    let frame = world.frame();
    let frames = world.scopes().frames();
    let Ok(made) = exports_of(alloc, &entries, tag.decl.variables.as_slice()) else {
        return Flow::Over(End::NoMemory);
    };
    let exports = made.as_slice();
    let Ok(before) = nested_changes(alloc, exports, world.scopes()) else {
        return Flow::Over(End::NoMemory);
    };
    let Ok(()) = world.push_frame_of(entries) else {
        return Flow::Over(End::NoMemory);
    };
    let inner = CallSeat {
        tag,
        exports,
        body: &call.body,
        fragments: call.fragments.as_slice(),
        behind: at.pc + 1,
        frame,
    };
    let seat = Seat::InTag(&inner, &*at.seat);
    let start = CodeStart {
        seat: &seat,
        pc: 0,
        left,
    };
    match run_code(alloc, &*at.served, start, records, world) {
        End::Normal => match give_back(alloc, exports, before.as_slice(), frame, world) {
            Ok(()) => {
                world.go_back(frames, frame);
                Flow::Go(at.pc + 1 + size_of(call))
            }
            Err(failed) => fail(alloc, failed, &at.cell.place, opened, world),
        },
        End::Raised { fault, place } => {
            world.go_back(frames, frame);
            throw_at(alloc, fault, &place, opened, world)
        }
        end => Flow::Over(end),
    }
}

// The body, or the fragment of a name, that a call gives.
fn given<'a>(name: Option<&Text>, call: &'a CallSeat) -> Given<'a>
    requires within { call.now.behind + (body_size (call_of call.now).body + fragments_size
        (call_of call.now).fragments) < 2 ^ 64 }
    ensures { (caller : Seat') → given_of result ≡ given_by (option_map (λ name. name.now) name.entry)
        (in_tag (call_of call.now) caller) }
{
    match name {
        None => body_given(call),
        Some(name) => fragment_given(name, call),
    }
}

// Runs the body, or the fragment of a name, that the call around gives; what wasn't given gives
// nothing.
#[cycle(machine)]
pub(crate) fn given_call<W: World>(
    alloc: Global,
    at: &At,
    records: &mut RequestRecords,
    name: Option<&Text>,
    opened: &mut Open,
    world: &mut W,
) -> Flow
    requires covered { W.covered world.old }
    requires records { IsRecordsAt at.now records.old }
    requires known { Known W.reached W.stores at.now.served.now world.old }
    requires seat { SeatFits (seat_at at.now) }
    requires holds { SeatHolds (seat_at at.now) (length (W.variables world.old).frames) }
    requires within { at.now.pc + 1 < 2 ^ 64 }
    ensures covered { W.covered world.new }
    ensures records { IsRecordsAt at.now records.new }
    ensures stepped { Stepped W.reached W.replies (ServesSo W.stores at.now.served.now) (seat_at at.now)
        (λ serving s. given_called at.now.cell.place (given_by (option_map (λ name. name.now) name.entry)
        (seat_at at.now)) (seat_at at.now) (at.now.pc + 1) s (open_of opened.old)) world.old world.new
        (open_of opened.new) result }
    ensures left { opened.new.left ≡ opened.old.left }
{
    match at.seat {
        Seat::InPage(_, _) => Flow::Go(at.pc + 1),
        Seat::InTag(call, caller) => match given(name, call) {
            Given::Nothing => Flow::Go(at.pc + 1),
            Given::Source(text) => write_source(alloc, at, call, text, opened, world),
            Given::Code(pc) => {
                let Some(left) = opened.left.checked_sub(1) else {
                    return throw(alloc, RunFault::TooDeep, &at.cell.place, opened, world);
                };
                if let Err(failed) = copy_out(alloc, call.exports, call.frame, world) {
                    return fail(alloc, failed, &at.cell.place, opened, world);
                }
                let frame = world.frame();
                let frames = world.scopes().frames();
                world.turn_to(call.frame);
                let start = CodeStart {
                    seat: &*caller,
                    pc,
                    left,
                };
                match run_code(alloc, &*at.served, start, records, world) {
                    End::Normal => {
                        world.go_back(frames, frame);
                        Flow::Go(at.pc + 1)
                    }
                    End::Raised { fault, place } => {
                        world.go_back(frames, frame);
                        throw_at(alloc, fault, &place, opened, world)
                    }
                    end => Flow::Over(end),
                }
            }
        },
    }
}

// Writes the source text that a call gives.
fn write_source<W: World>(
    alloc: Global,
    at: &At,
    call: &CallSeat,
    text: &Text,
    opened: &mut Open,
    world: &mut W,
) -> Flow
    requires covered { W.covered world.old }
    requires within { at.now.pc + 1 < 2 ^ 64 }
    requires there { call.now.frame < length (W.variables world.old).frames }
    ensures covered { W.covered world.new }
    ensures acted { (name : Option (List ℕ)) (seat caller : Seat') →
        seat ≡ in_tag (call_of call.now) caller → given_by name seat ≡ source_text text.now
        → Acted W.reached W.replies (λ s. given_called at.now.cell.place (given_by name seat) seat
        (at.now.pc + 1) s (open_of opened.old)) world.old world.new (open_of opened.new) result }
    ensures left { opened.new.left ≡ opened.old.left }
{
    let Some(_left) = opened.left.checked_sub(1) else {
        return throw(alloc, RunFault::TooDeep, &at.cell.place, opened, world);
    };
    if let Err(failed) = copy_out(alloc, call.exports, call.frame, world) {
        return fail(alloc, failed, &at.cell.place, opened, world);
    }
    match world.put(text.as_str()) {
        Ok(()) => Flow::Go(at.pc + 1),
        Err(failed) => fail(alloc, failed, &at.cell.place, opened, world),
    }
}
