// Copies between slices, which the sources and sinks in memory share.
ghost use Rattle.std.specs.Prelude.{◌≡◌, ◌≤◌, ◌<◌, ◌+◌, ◌++◌, [], length, take};
ghost use Rattle.tw_ports.specs.Memory.{given_count};

// Copies the next bytes to the front of the piece, at most `most`, and says how many.
pub fn give(bytes: &[u8], piece: &mut [u8], most: usize) -> usize
    requires room { 0 < length piece.old }
    requires most { 0 < most }
    ensures count { result ≡ given_count most bytes.now piece.new }
    ensures within { result ≤ length piece.new }
    ensures left { result ≤ length bytes.now }
    ensures given { take result piece.new ≡ take result bytes.now }
    ensures none { result ≡ 0 → bytes.now ≡ [] }
{
    let count = most.min(piece.len()).min(bytes.len());
    piece[..count].copy_from_slice(&bytes[..count]);
    count
}

// Writes the piece behind the part of the room that is used.
pub fn put(room: &mut [u8], used: usize, piece: &[u8])
    requires { used + length piece.now ≤ length room.old }
    ensures { take (used + length piece.now) room.new ≡ take used room.old ++ piece.now }
{
    room[used..used + piece.len()].copy_from_slice(piece);
}
