ghost use Rattle.site_core.specs.ReadGiven.{CanBegin, CanFind, CanName, CanShow, IsBegunBy};
ghost use Rattle.site_core.specs.ReadGiven.{IsFoundBy, IsFreshBy, IsSnappedBy};

use site_state::{Gift, Given};
use site_words::{Begun, Fresh, Reply, Snapped};
use std::sync::Arc;

/// A request that has begun, by what was given.
#[inline(always)]
pub(crate) fn begun<P: Drop>(given: Given<P>) -> Begun
    requires { CanBegin given.reply given.gift }
    ensures { IsBegunBy given.reply given.gift result }
{
    let Given { reply, gift } = given;
    match (reply, gift) {
        (
            Reply::Begun {
                request,
                version,
                session,
            },
            Gift::Start(tree, attrs),
        ) => Begun {
            request,
            version,
            session,
            tree,
            attrs,
        },
        _ => unreachable!(),
    }
}

/// A session that was made, by what was given.
pub(crate) fn fresh<P: Drop>(given: Given<P>) -> Fresh
    requires { CanName given.reply given.gift }
    ensures { IsFreshBy given.reply given.gift result }
{
    let Given { reply, gift } = given;
    match (reply, gift) {
        (Reply::Made { session }, Gift::Id(id)) => Fresh { session, id },
        _ => unreachable!(),
    }
}

/// A picture, by what was given.
pub(crate) fn snapped<P: Drop>(given: Given<P>) -> Snapped
    requires { CanShow given.reply given.gift }
    ensures { IsSnappedBy given.reply given.gift result }
{
    let Given { reply, gift } = given;
    match (reply, gift) {
        (Reply::Snapped { version, session }, Gift::Picture(tree, app, attrs)) => Snapped {
            version,
            session,
            tree,
            app,
            attrs,
        },
        _ => unreachable!(),
    }
}

/// The value that was found, by what was given.
#[inline(always)]
pub(crate) fn found<P: Drop>(given: Given<P>) -> Option<Arc<P>>
    requires { CanFind given.reply given.gift }
    ensures { IsFoundBy given.reply given.gift result }
{
    let Given { reply, gift } = given;
    match (reply, gift) {
        (Reply::Fetched { hit: true }, Gift::Made(made)) => Some(made),
        (Reply::Fetched { hit: false }, _) => None,
        _ => unreachable!(),
    }
}
