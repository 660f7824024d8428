ghost use Rattle.std.specs.Prelude.{map};
ghost use Rattle.page_table.specs.Checked.{TagsFit};
ghost use Rattle.run_world.specs.Tags.{tag_of};

use code_check::CheckedCode;
use pg_text::{Listed, Path};
use pg_value::PageSettings;
use tag_decl::TagDecl;

/// A tag file as its code, with what it declares.
#[derive(Drop)]
pub struct TagProgram {
    pub path: Path,
    pub decl: TagDecl,
    pub settings: PageSettings,
    pub code: CheckedCode,
}

/// A page as its code, with the tag files that its unit calls.
#[derive(Drop)]
pub struct Program {
    pub path: Path,
    pub settings: PageSettings,
    pub code: CheckedCode,
    pub tags: Listed<TagProgram>,
}

/// Knows that the codes of these tag files fit: each was checked when it was made.
pub fn know_tags(tags: &[TagProgram])
    ensures { TagsFit (map tag_of tags.now) }
{
    for tag in tags {
        let _ = tag.code.code();
    }
}
