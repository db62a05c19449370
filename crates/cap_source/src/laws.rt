//! Laws of capture files, each the contract of a function that does nothing.
ghost use Rattle.cap_source.specs.inner.Counted.{CommentsApart};
ghost use Rattle.cap_source.specs.inner.Fields.{FieldsFit, FramesFit};
ghost use Rattle.cap_source.specs.inner.Places.{ItemsByPlaces, EndingByPlaces, FirstByPlaces, KindsByPlaces};
ghost use Rattle.cap_source.specs.inner.Places.{NumbersByPlaces};
ghost use Rattle.cap_source.specs.inner.Written.{InterfaceWritten};

/// In every file, of either format, the fields of a packet and of its interface fit in their widths: the
/// link type in two bytes, the snaplen and the original length in four, the units and the offset (with its
/// sign) in eight. The captured length of a packet is the number of its captured bytes, at most 262,144; that
/// is so whatever numbers stand for the file's bytes.
pub fn fields_fit()
    ensures law { FieldsFit }
    ensures frames { FramesFit }
{}

/// In every pcapng file what counts at a block are the blocks before it, by their kinds: the interfaces are those
/// of the interface blocks after the last section header, in order; how many stand before that header counts for
/// the instance; and as many blocks were skipped as are of no known kind, those of secrets and of names among them.
/// By these go the items, how the file ends, and its first interface.
pub fn blocks_by_places()
    ensures items { ItemsByPlaces }
    ensures ending { EndingByPlaces }
    ensures first { FirstByPlaces }
    ensures numbers { NumbersByPlaces }
    ensures kinds { KindsByPlaces }
{}

/// Counting the comments of a file changes nothing else of how the file ends. Their number is known exactly if they are
/// counted and the file is a pcapng file.
pub fn comments_apart()
    ensures { CommentsApart }
{}

/// What is written for an interface of which the fields fit is read again as that interface: its link type, its
/// snaplen, its resolution and its offset.
pub fn interface_written()
    ensures { InterfaceWritten }
{}
