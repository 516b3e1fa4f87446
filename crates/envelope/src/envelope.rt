// An envelope at the windows that a regulator keeps: f and its first pieces.
ghost use Rattle.std.specs.Prelude.{◌≡◌, ◌≤◌};
ghost use Rattle.envelope.specs.ClosureRow.{turned_row};
ghost use Rattle.envelope.specs.Envelope.{near_to, pieces_to};

use crate::table::Envelope;
use crate::windows::fill;

// The furthest window that a regulator keeps: L + d at most.
pub const LAST_NEAR: usize = 128;

// f and its first piece at the windows 0 to 128, as far as they were asked for.
#[derive(Clone, Copy)]
pub struct NearBounds {
    pub packets: [u32; LAST_NEAR + 1],
    pub pieces: [u32; LAST_NEAR + 1],
}

// The row's first places turned round, and 0 at the places after them. In a row of its own: pieces that nobody reads are then not worked.
fn turned(row: &[u32; LAST_NEAR + 1], count: usize) -> [u32; LAST_NEAR + 1]
    requires { count ≤ 129 }
    ensures { result ≡ turned_row row.now count }
{
    let mut out = [0; LAST_NEAR + 1];
    for k in 0..count {
        out[k] = row[count - 1 - k];
    }
    out
}

// The answers at the windows 0 to `last` and no further than 128, worked in one pass, and 0 at the places after them.
pub fn near(e: Envelope, last: usize) -> NearBounds
    ensures { (result.packets ≡ near_to e last) × (result.pieces ≡ pieces_to e last) }
{
    let mut packets = [0; LAST_NEAR + 1];
    let mut pieces = [0; LAST_NEAR + 1];
    let count = last.min(LAST_NEAR) + 1;
    fill(e, &mut packets[..count], &mut pieces[..count]).unwrap();
    NearBounds {
        packets: turned(&packets, count),
        pieces: turned(&pieces, count),
    }
}
