mod app;
mod begin;
mod end;
mod fresh;
mod next;
mod publish;
mod snapshot;
mod start;
mod values;

use crate::known_ids::KnownIds;
use crate::request::Request;
use crate::session_list::SessionList;
use pg_value::Record;
use program_store::Store;
use site_words::Compiled;
use source_tree::Tree;
use std::alloc::Global;
use std::sync::Arc;

/// All that a site holds beside its opening and its history.
#[derive(Drop)]
pub struct Held<P: Compiled> {
    pub alloc: Global,
    pub tree: Arc<Tree>,
    pub version: u64,
    pub app: Record,
    pub sessions: SessionList,
    pub ids: KnownIds,
    pub runs: Vec<Option<Request>>,
    pub store: Store<P>,
    pub begins: u64,
    pub freshes: u64,
    pub moment: u64,
    pub weight: u64,
}
