use crate::chain::Chain;
use pg_value::PageSettings;

// Within what a file is read: under what settings, within which files, and how many files deep
// reading may go.
#[derive(Clone, Copy)]
pub(crate) struct Within<'f> {
    pub settings: &'f PageSettings,
    pub chain: &'f Chain<'f>,
    pub deep: usize,
}
