//! Laws of the requests of a link.

ghost use Rattle.eco_wire.specs.Bounds.{UnfinishedIsShort, RefusalsHaveHeads};
ghost use Rattle.eco_wire.specs.Streams.{ReadingsStay, ReadingsAreOne, LinksReadStreams, PiecesDontMatter};

/// Bytes that follow change no whole request and no refusal.
pub fn readings_stay()
    ensures { ReadingsStay }
{}

/// Bytes have one reading. Only where they begin with no whole head may one reader refuse what another waits for.
pub fn readings_are_one()
    ensures { ReadingsAreOne }
{}

/// A link reads the stream of all the bytes that it is given.
pub fn links_read_streams()
    ensures { LinksReadStreams }
{}

/// Two links that are given the same bytes, in whatever pieces, read the same requests.
pub fn pieces_dont_matter()
    ensures { PiecesDontMatter }
{}

/// Bytes that hold no whole request yet are fewer than a head and a body may have.
pub fn unfinished_is_short()
    ensures { UnfinishedIsShort }
{}

/// A status that refuses bytes is one that a reply head has.
pub fn refusals_have_heads()
    ensures { RefusalsHaveHeads }
{}
