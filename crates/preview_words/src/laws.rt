ghost use Rattle.preview_words.specs.Laws.{AreLatest, AreRunnable, TakesPicturesAlone};

/// The site of its own on which a preview runs may open, by each picture and draft, where the tree
/// with the draft keeps its limits and a version is left.
pub fn own_sites()
    ensures { AreRunnable }
{}

/// A picture has the latest version; and whatever the requests of a preview connection come to, its
/// pass has seen more of one history, and its new entries are pictures alone, so that nothing that
/// a previewed page writes is seen elsewhere.
pub fn pictures()
    ensures latest { AreLatest }
    ensures alone { TakesPicturesAlone }
{}
