//! Reading requests.

ghost use Rattle.std.specs.Prelude.{◌≡◌, [], false, OnOk};
ghost use Rattle.solve_serve.specs.Requests.{reading, IsPlace, IsNext, IsPiece, HasGrown, IsEnd, IsTaken};

use crate::stop::Stop;
use dcop_base::Bytes;
use dcop_edge::{Failed, Source};
use wire_frames::{FrameFault, FrameReader};

/// The most bytes of one read.
const BLOCK: usize = 16_384;

/// The next request: the payload of the next whole frame.
///
/// Frames that were read before a length field that is too long come first. After that field
/// nothing is read.
pub(crate) fn next_request<S: Source>(
    source: &mut S,
    reader: &mut FrameReader,
    place: &mut Option<u64>,
) -> Result<Bytes, Stop>
    requires { IsPlace place.old reader.old }
    ensures place { OnOk result (IsPlace place.new reader.new) }
    ensures next { IsNext result
        (reading reader.old (S.left source.old) (S.faults source.old))
        (reading reader.new (S.left source.new) (S.faults source.new)) }
{
    loop {
        match reader.next() {
            Some(request) => return Ok(request),
            None => *place = read_on(source, reader, *place)?,
        }
    }
}

/// Reads one more piece for a reader that holds no whole frame, unless it is at a length field that
/// is too long. Gives the place of such a field if the piece brought one.
fn read_on<S: Source>(
    source: &mut S,
    reader: &mut FrameReader,
    place: Option<u64>,
) -> Result<Option<u64>, Stop>
    requires none { reader.old.ready ≡ [] }
    requires place { IsPlace place reader.old }
    ensures piece { IsPiece result
        (reading reader.old (S.left source.old) (S.faults source.old))
        (reading reader.new (S.left source.new) (S.faults source.new)) }
    ensures grown { OnOk result (HasGrown reader.old reader.new) }
{
    match place {
        Some(place) => Err(Stop::Long(place)),
        None => read_piece(source, reader),
    }
}

/// [`read_on`] for a reader that met no length field that is too long.
fn read_piece<S: Source>(source: &mut S, reader: &mut FrameReader) -> Result<Option<u64>, Stop>
    requires none { reader.old.ready ≡ [] }
    requires free { reader.old.stuck ≡ false }
    ensures piece { IsPiece result
        (reading reader.old (S.left source.old) (S.faults source.old))
        (reading reader.new (S.left source.new) (S.faults source.new)) }
    ensures grown { OnOk result (HasGrown reader.old reader.new) }
{
    let mut block = [0; BLOCK];
    match source.read(&mut block) {
        Ok(0) => Err(input_end(reader)),
        Ok(count) => take_piece(reader, &block[..count]),
        Err(Failed) => Err(Stop::Read),
    }
}

/// Whether the input ended after whole frames or inside one.
fn input_end(reader: &FrameReader) -> Stop
    ensures { IsEnd reader.now result }
{
    if reader.rest() == 0 {
        Stop::Closed
    } else {
        Stop::Cut
    }
}

/// Takes a piece that was read.
fn take_piece(reader: &mut FrameReader, piece: &[u8]) -> Result<Option<u64>, Stop>
    requires free { reader.old.stuck ≡ false }
    ensures { IsTaken reader.old piece.now result reader.new }
{
    match reader.feed(piece) {
        Ok(()) => Ok(None),
        Err(FrameFault::TooLong { place }) => Ok(Some(place)),
        Err(FrameFault::NoMemory) => Err(Stop::Memory),
    }
}
