ghost use Rattle.out_buffer.specs.Laws.{NoPieceIsEmpty, OutputIsKept, PiecesGrow};

/// No byte that is put is lost, added or moved on its way to the sink. This call does nothing: its
/// contract is the law.
pub fn output_is_kept()
    ensures { OutputIsKept }
{}

/// What was committed stands, and more comes behind it. This call does nothing: its contract is the
/// law.
pub fn pieces_only_grow()
    ensures { PiecesGrow }
{}

/// No piece that is committed is empty. This call does nothing: its contract is the law.
pub fn no_piece_is_empty()
    ensures { NoPieceIsEmpty }
{}
