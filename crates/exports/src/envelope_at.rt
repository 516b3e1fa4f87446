// The envelope, asked from C or Rust.
ghost use Rattle.std.specs.Prelude.{◌≡◌};
ghost use Rattle.question.specs.Question.{answer_given};
ghost use Rattle.c_answers.specs.Numbered.{bound_of, envelope_at};

use c_answers::answer::Bound;
use numbers::count::Slots;
use orders::refusal::Refusal;
use question::question::{WindowBound, ask};
use settings::table::take;

// The table taken, and asked at the window.
fn asked(table: &[u32], window: u32) -> Result<WindowBound, Refusal>
    ensures { bound_of (answer_given result) ≡ envelope_at table.now window }
{
    ask(take(table)?, Slots(window))
}

// f of a table at a window and its first piece, or 1 to 4 where the table is refused, then 5.
pub fn bezhantiru_envelope(table: &[u32], window: u32) -> Bound
    ensures { result ≡ envelope_at table.now window }
{
    asked(table, window).into()
}
