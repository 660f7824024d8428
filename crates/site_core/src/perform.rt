// One operation on the parts of a site.
ghost use Rattle.std.specs.Prelude.{◌≡◌, ◌+◌, ◌-◌, ◌<◌, ◌≤◌, ◌∷◌, ◌++◌, []};
ghost use Rattle.edges.specs.Acted.{IsDid};
ghost use Rattle.packed_entries.specs.Kinds.{Pairs, stands_apart};
ghost use Rattle.site_words.specs.Law.{May, Sure, own, run_of};
ghost use Rattle.site_state.specs.Gifts.{IsMade, value_in};
ghost use Rattle.site_state.specs.Parts.{parts_of};
ghost use Rattle.site_state.specs.Spare.{growth, open_runs};
ghost use Rattle.site_state.specs.Works.{entry_of};
ghost use Rattle.site_core.specs.Applies.{Applies};
ghost use Rattle.site_core.specs.ReadSite.{IsSite};

use packed_entries::{History, PackedEntry, Room};
use site_state::{Act, Done, Given, Held};
use site_words::{Acted, Compiled, Op, Opening, Refusal};

/// Does one operation of a pass, for whose entry the history makes room first.
#[inline(always)]
pub(crate) fn perform<P: Compiled>(
    opening: &Opening,
    history: &mut History,
    held: &mut Held<P>,
    pass: u8,
    act: Act<P>,
) -> Acted<Given<P>, Refusal>
    requires site { IsSite P.needs P.made opening.now history.old.items (parts_of held.old) history.old.room }
    requires may { May opening.now history.old.items pass (own pass history.old.items) act.op }
    requires made { IsMade P.made opening.now history.old.items (run_of (own pass history.old.items)) act.op
        (value_in act.made) }
    ensures site { IsSite P.needs P.made opening.now history.new.items (parts_of held.new) history.new.room }
    ensures applies { Applies P.needs P.made (record { opening = opening.now; history = history.old.items })
        (record { opening = opening.now; history = history.new.items }) pass act.op result }
    ensures sure { Sure opening.now history.old.items pass (own pass history.old.items) act.op → IsDid result }
{
    let Ok(()) = held.reserve(history, &act.op) else {
        return Acted::NoMemory;
    };
    perform_reserved(opening, history, held, pass, act)
}

// Does one operation of a pass, for whose entry the history has room.
#[inline(always)]
fn perform_reserved<P: Compiled>(
    opening: &Opening,
    history: &mut History,
    held: &mut Held<P>,
    pass: u8,
    act: Act<P>,
) -> Acted<Given<P>, Refusal>
    requires site { IsSite P.needs P.made opening.now history.old.items (parts_of held.old) history.old.room }
    requires may { May opening.now history.old.items pass (own pass history.old.items) act.op }
    requires made { IsMade P.made opening.now history.old.items (run_of (own pass history.old.items)) act.op
        (value_in act.made) }
    requires room { open_runs (parts_of held.old).runs + growth act.op ≤ history.old.room }
    ensures site { IsSite P.needs P.made opening.now history.new.items (parts_of held.new) history.new.room }
    ensures applies { Applies P.needs P.made (record { opening = opening.now; history = history.old.items })
        (record { opening = opening.now; history = history.new.items }) pass act.op result }
    ensures sure { Sure opening.now history.old.items pass (own pass history.old.items) act.op → IsDid result }
{
    let Ok(room) = Room::new(held.alloc, &act.op) else {
        return Acted::NoMemory;
    };
    let Act { op, made } = act;
    match held.act(opening, history, pass, &op, made) {
        Acted::Did(done) => Acted::Did(enter(history, pass, op, done, room)),
        Acted::Refused(refusal) => Acted::Refused(refusal),
        Acted::NoMemory => Acted::NoMemory,
    }
}

// The entry of what was done comes to the end of the history, and what goes with it is given.
#[inline(always)]
fn enter<P: Compiled>(
    history: &mut History,
    pass: u8,
    op: Op,
    done: Done<P>,
    room: Room,
) -> Given<P>
    requires pairs { Pairs op done.reply }
    requires apart { room ≡ stands_apart op }
    requires place { 0 < history.old.room }
    ensures given { result ≡ done.given }
    ensures items { history.new.items ≡ history.old.items ++ entry_of pass op done.reply ∷ [] }
    ensures room { history.new.room ≡ history.old.room - 1 }
{
    let Done { reply, given } = done;
    history.push_reserved(PackedEntry::new(pass, op, reply, room));
    given
}
