// Certificates from C or Rust: given for our own run, and checked beside anyone's rows.
ghost use Rattle.std.specs.Prelude.{◌≡◌};
ghost use Rattle.certificate.specs.Claim.{claim_of};
ghost use Rattle.found_links.specs.Given.{Given};
ghost use Rattle.certificate.specs.Checked.{certificate_of};

use certificate::check::check_certificate;
use found_links::certify::certify;
use numbers::count::{Packets, Slots};
use orders::refusal::number_given;
use rivals::judge::Judgement;

// Fills the three lists with the links found for the run of a trace, and answers 0; or a number, and writes to none of them.
pub fn bezhantiru_certify(
    table: &[u32],
    delay: u32,
    buffer: u32,
    arrivals: &[u32],
    admitted_from: &mut [u32],
    admitted_by: &mut [u32],
    departed_from: &mut [u32],
) -> u32
    ensures { Given table.now delay buffer arrivals.now admitted_from.old admitted_by.old departed_from.old result admitted_from.new admitted_by.new departed_from.new }
{
    number_given(certify(
        table,
        Slots(delay),
        Packets(u64::from(buffer)),
        arrivals,
        admitted_from,
        admitted_by,
        departed_from,
    ))
}

// A number, and 0 for the rest; or 0, and the rule, slot and window that the rows break first, or 6 or 7 and the first slot whose link does
// not hold; all 0 where the rows are certified.
pub fn bezhantiru_check_certificate(
    table: &[u32],
    delay: u32,
    buffer: u32,
    arrivals: &[u32],
    admitted: &[u32],
    departed: &[u32],
    admitted_from: &[u32],
    admitted_by: &[u32],
    departed_from: &[u32],
) -> Judgement
    ensures { result ≡ certificate_of (claim_of table.now delay buffer arrivals.now admitted.now departed.now admitted_from.now admitted_by.now departed_from.now) }
{
    check_certificate(
        table,
        Slots(delay),
        Packets(u64::from(buffer)),
        arrivals,
        admitted,
        departed,
        admitted_from,
        admitted_by,
        departed_from,
    )
}
