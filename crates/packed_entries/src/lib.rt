//! The entries of a history in few bytes: those of the frequent kinds stand in their slots, the
//! others in memory of their own.
#![tactic(auto)]

mod answered;
mod kind;
mod op_ref;
mod packed;
mod reply_ref;
mod room;

use block_list::BlockList;
pub use op_ref::OpRef;
pub use packed::PackedEntry;
pub use reply_ref::ReplyRef;
pub use room::Room;

/// The entries of a site, from the first on.
pub type History = BlockList<PackedEntry>;
