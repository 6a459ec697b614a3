//! What holds of the definitions. No code stands here.
ghost use Rattle.mixer_spec.specs.PieceLaws.{CharactersAreWhole, CharactersFollow, ChunksRise, ChunksStay, CutIsShort, CutIsText, CutIsWhole, CutsAreShort, CutsAreTexts, EachIsACharacter, PiecesAreGroups, PiecesAreTold, PiecesHaveCharacters, PiecesSayTheText, ShortStays};
ghost use Rattle.mixer_spec.specs.Rooms.{NoRoomIsGreater, PieceHasRoom, TextsFit};
ghost use Rattle.mixer_spec.specs.Sending.{AnyFits};
ghost use Rattle.mixer_spec.specs.PieceHeadline.{HopsHavePieces};

/// A text is cut into pieces of at most so many octets, none empty, which together are the text; a marker is not cut. Where the
/// text is UTF-8 and four octets fit, so is each piece. A text of so many octets is left as it is.
pub fn texts_are_cut()
    ensures whole { CutIsWhole }
    ensures short { CutIsShort }
    ensures text { CutIsText }
    ensures stays { ShortStays }
{}

/// A text is cut into its characters, which together are the text; a marker is one. Where the text is UTF-8 each is as UTF-8 writes
/// it; and those of its pieces, one behind the other, are those of the text. So the pieces of some texts are groups of the characters
/// of any others that say the same.
pub fn texts_are_characters()
    ensures whole { CharactersAreWhole }
    ensures each { EachIsACharacter }
    ensures follow { CharactersFollow }
    ensures pieces { PiecesHaveCharacters }
    ensures groups { PiecesAreGroups }
{}

/// Chunks that are cut stay texts, are short, and stay in order of their moments. Those that are short are left as they are.
pub fn chunks_are_cut()
    ensures texts { CutsAreTexts }
    ensures short { CutsAreShort }
    ensures rises { ChunksRise }
    ensures stays { ChunksStay }
{}

/// What is told in pieces says the same text. It has the pieces of each block that is told, and no others, and the same marks.
pub fn told_in_pieces()
    ensures said { PiecesSayTheText }
    ensures each { PiecesAreTold }
{}

/// Where no text has more octets than its room, no packet has more octets than the way allows; so it is at each terminal of a
/// mixer, after every list of events. A piece goes into each room, and each room into a block.
pub fn packets_fit()
    ensures fit { TextsFit }
    ensures any { AnyFits }
    ensures piece { PieceHasRoom }
    ensures most { NoRoomIsGreater }
{}

/// Where the second hop carries, in entries of whole pieces, what the first one tells, both tell the octets of the source's text
/// in order, each at most once. A piece is absent exactly where every packet that carries its block on the first hop, or every
/// packet that carries the piece on the second, was lost or late; and between packets that came a mark stands there.
pub fn hops_have_pieces()
    ensures { HopsHavePieces }
{}
