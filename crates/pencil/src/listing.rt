// All short traces, in order: every trace of T slots with 0 to 3 arrivals in each.
ghost use Rattle.std.specs.Prelude.{◌≡◌, ◌*◌, ◌^◌, ◌≤◌, length};
ghost use Rattle.pencil_calculus.specs.Traces.{all_traces};
ghost use Rattle.orders.specs.Answered.{number_given, verdict_given};
ghost use Rattle.pencil.specs.Listing.{listing_refusal, Listed};

use orders::refusal::Refusal;
use refusals::lengths::{list_refusal, short_refusal};

// 4 to the power T.
fn traces(slots: usize) -> usize
    requires { slots ≤ 5 }
    ensures { (result ≡ 4 ^ slots) × (result ≤ 1024) }
{
    4usize.pow(slots as u32)
}

// Fills the list trace by trace, each from its last slot back: place k·T + j is slot j+1 of trace k.
fn fill(slots: usize, list: &mut [u32])
    requires { (slots ≤ 5) × (length list.old ≡ slots * 4 ^ slots) }
    ensures { list.new ≡ all_traces slots }
{
    for k in 0..traces(slots) {
        let mut rest = k;
        for j in (0..slots).rev() {
            list[k * slots + j] = (rest % 4) as u32;
            rest /= 4;
        }
    }
}

// 24 for more than five slots, 11 for a list of another length.
#[tactic(auto, unfolding(crate::specs::Listing::listing_refusal), using(orders::proofs::Given::refused_first, orders::proofs::Given::passed_first))]
pub fn listing_refusal(slots: usize, places: usize) -> Result<(), Refusal>
    ensures { number_given result ≡ listing_refusal slots places }
{
    short_refusal(slots)?;
    list_refusal(slots * traces(slots), places)
}

// Lists every trace of T slots, or answers a refusal and leaves the list as it is.
pub fn list_traces(slots: usize, list: &mut [u32]) -> Result<(), Refusal>
    ensures { Listed slots list.old (verdict_given result) list.new }
{
    listing_refusal(slots, list.len())?;
    fill(slots, list);
    Ok(())
}
