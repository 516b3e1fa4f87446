// Many questions at once, worked in one pass.
ghost use Rattle.orders.specs.Answered.{verdict_given};
ghost use Rattle.question.specs.Windows.{WindowsAnswered};

use envelope::table::Envelope;
use envelope::windows::{ALL_WINDOWS, fill};
use orders::refusal::Refusal;

// Fills the row with f and the other list with its first pieces, at as many windows as the row has places, window 0 last.
pub fn windows(e: Envelope, row: &mut [u32], pieces: &mut [u32]) -> Result<(), Refusal>
    ensures { WindowsAnswered e row.old pieces.old (verdict_given result) row.new pieces.new }
{
    if row.len() > ALL_WINDOWS {
        return Err(Refusal::WindowTooFar);
    }
    if pieces.len() != row.len() {
        return Err(Refusal::ListLength);
    }
    fill(e, row, pieces)
}
