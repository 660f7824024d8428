use std::alloc::Global;

/// On what a server runs: threads, memory and clocks.
#[derive_where(Clone, Copy)]
pub struct Platform<'a, R, W> {
    pub rt: &'a R,
    pub alloc: Global,
    pub clocks: &'a W,
}
