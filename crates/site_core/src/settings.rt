/// What a site is told when it is new, beside what it holds.
#[derive(Clone, Copy)]
pub struct SiteSettings {
    /// What the ids of its sessions are made of.
    pub seed: [u8; 32],
    /// The most that its journal weighs.
    pub limit: u64,
    pub passes: u8,
    /// After how many seconds without use a session ends.
    pub idle: u64,
}
