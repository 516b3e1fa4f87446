// The envelope, asked from C or Rust.
ghost use Rattle.std.specs.Prelude.{◌≡◌};
ghost use Rattle.c_answers.specs.Numbered.{envelope_at};

use c_answers::answer::Bound;

// f of a table at a window and its first piece, or 1 to 4 where the table is refused, then 5.
#[unsafe(no_mangle)]
pub extern "C" fn bezhantiru_envelope(table: &[u32], window: u32) -> Bound
    ensures { result ≡ envelope_at table.now window }
{
    exports::envelope_at::bezhantiru_envelope(table, window)
}
