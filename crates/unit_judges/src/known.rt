use page_pieces::Prefixes;
use tag_decl::TagDecl;

/// What is known where an element is judged: the prefixes of the core library, whether this is a
/// tag file, and what the tag file that the element calls declares, where that has no fault.
#[derive(Clone, Copy)]
pub struct Known<'k, 'd> {
    pub core: &'k Prefixes,
    pub in_tag: bool,
    pub decl: Option<&'d TagDecl>,
}
