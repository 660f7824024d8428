//! A site: its opening, its history, and the one step; and the port of a pass that acts on it.
#![tactic(auto)]

mod acting;
mod actor;
mod alone;
mod condition;
mod given;
mod opening;
mod perform;
mod settings;
mod site;

pub use acting::Acting;
pub use actor::Actor;
pub use alone::{Alone, SoloPort, into_site, solo};
pub use opening::sound;
pub use settings::SiteSettings;
pub use site::{Site, start};
pub use site_state::{Act, Gift, Given};
