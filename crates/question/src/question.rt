// The question at a window, worked in a row of its own.
ghost use Rattle.std.specs.Prelude.{◌≡◌, ◌≤◌};
ghost use Rattle.envelope.specs.Envelope.{bound, piece_at};
ghost use Rattle.question.specs.Question.{answer_given, asked};

use envelope::table::Envelope;
use envelope::windows::{ALL_WINDOWS, fill};
use numbers::count::{Packets, Slots};
use numbers::size::LAST_ASKED;
use orders::refusal::Refusal;

// f at a window, and its first piece: the smallest window of the table with which f there is made up, 0 at window 0.
#[derive(Clone, Copy)]
pub struct WindowBound {
    pub packets: Packets,
    pub piece: Slots,
}

// The row's first place is the window's, and the list of pieces has no other: one piece is looked for.
fn at_window(e: Envelope, w: usize) -> WindowBound
    requires { w ≤ 4160 }
    ensures { (result.packets.0 ≡ bound e w) × (result.piece.0 ≡ piece_at e w) }
{
    let mut row = [0; ALL_WINDOWS];
    let mut piece = [0];
    fill(e, &mut row[..w + 1], &mut piece).unwrap();
    WindowBound {
        packets: Packets(u64::from(row[0])),
        piece: Slots(piece[0]),
    }
}

// f at a window and its first piece. A window above 4,160 is refused.
pub fn ask(e: Envelope, window: Slots) -> Result<WindowBound, Refusal>
    ensures { answer_given result ≡ asked e window.0 }
{
    let w = window.0 as usize;
    if w > LAST_ASKED {
        return Err(Refusal::WindowTooFar);
    }
    Ok(at_window(e, w))
}
