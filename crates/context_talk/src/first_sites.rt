use context_names::ContextNames;

/// The sites on which the command starts: one without files for each name, all of this seed.
#[derive(Clone, Copy)]
pub(crate) struct FirstSites<'a> {
    pub(crate) names: &'a ContextNames,
    pub(crate) seed: [u8; 32],
}
