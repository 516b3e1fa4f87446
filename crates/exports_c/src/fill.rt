// The two readers of a slot's record, for C or Rust: any numbers are answered.
ghost use Rattle.std.specs.Prelude.{◌≡◌};
ghost use Rattle.live_step.specs.Fill.{form_fill_of, bench_fill_of};

// The order form's fill, at the slot's end.
#[unsafe(no_mangle)]
pub extern "C" fn bezhantiru_form_fill(held_before: u64, admitted: u64, departed: u64) -> u64
    ensures { result ≡ form_fill_of held_before admitted departed }
{
    exports::fill::bezhantiru_form_fill(held_before, admitted, departed)
}

// The bench's fill, before the slot's departures.
#[unsafe(no_mangle)]
pub extern "C" fn bezhantiru_bench_fill(held_before: u64, admitted: u64) -> u64
    ensures { result ≡ bench_fill_of held_before admitted }
{
    exports::fill::bezhantiru_bench_fill(held_before, admitted)
}
