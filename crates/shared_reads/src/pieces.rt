//! The size of the pieces in which a file is read.
ghost use Rattle.std.specs.Prelude.{◌≡◌, ◌<◌, min};

/// How many bytes of a file are read at once.
pub const PIECE: usize = 65536;

/// How many bytes to read next, if so many are left and a buffer has so much room.
pub fn piece(left: u64, room: usize) -> usize
    requires some { 0 < left }
    requires room { 0 < room }
    ensures is { result ≡ min left room }
    ensures some { 0 < result }
{
    if left < room as u64 {
        left as usize
    } else {
        room
    }
}
