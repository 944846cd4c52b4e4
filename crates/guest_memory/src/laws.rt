//! Laws of guest memory, over its definitions alone. Each is the contract of a function with no code.

ghost use Rattle.guest_memory.specs.Laws.{BytesReadBack, MappedBeginsThere, MappedTakesBackUnmapped, NoTwoMeet, NumberReadsBack, OneHasAByte, OtherBytesStay, OtherNumbersStay, PutTakesBackPut, PutTakesBackWritten, SegmentsStay, SegmentsStayAsBytesArePut, UnmappedTakesBackMapped};

/// Of segments in order no two meet, and at most one has a byte.
pub fn segments_lie_apart()
    ensures meet { NoTwoMeet }
    ensures one { OneHasAByte }
{}

/// What is written to a range that one segment has is read from it.
pub fn writes_read_back()
    ensures number { NumberReadsBack }
    ensures bytes { BytesReadBack }
{}

/// A write leaves every range apart from its own as it was.
pub fn other_bytes_stay()
    ensures number { OtherNumbersStay }
    ensures bytes { OtherBytesStay }
{}

/// A write moves no segment, and changes the size and the kind of none.
pub fn segments_stay()
    ensures number { SegmentsStay }
    ensures bytes { SegmentsStayAsBytesArePut }
{}

/// Unmapping takes back what mapping did, and mapping takes back what unmapping did.
pub fn mapping_is_taken_back()
    ensures rest { UnmappedTakesBackMapped }
    ensures segment { MappedBeginsThere }
    ensures unmapped { MappedTakesBackUnmapped }
{}

/// The earlier bytes, put where others were put or a number was written, take that back.
pub fn writing_is_taken_back()
    ensures put { PutTakesBackPut }
    ensures written { PutTakesBackWritten }
{}
