// The checker of anyone's rows with a certificate: the rules first, then both links of each slot.
ghost use Rattle.std.specs.Prelude.{List, ◌≡◌, ℕ, ◌≤◌, length};
ghost use Rattle.calculus.specs.Numbers.Limit.{delay_limit, buffer_limit};
ghost use Rattle.calculus.specs.Regulators.Trace as regulators;
ghost use Rattle.calculus.specs.Regulators.Rows.{envelope_of};
ghost use Rattle.certificate_calculus.specs.LackingLinks.{lack_at};
ghost use Rattle.orders.specs.Answered.{number_given};
ghost use Rattle.certificate.specs.Claim.{claim_of, of_claim};
ghost use Rattle.certificate.specs.Checked.{five_lists_refusal, certificate_refusal, rows_judged, lack_answer, certificate_of};
ghost use Rattle.certificate.specs.Read.{RowsRead, lack_number, links_in, Even, claimed};

use crate::held::Rows;
use chain::rows::{total_row, window_row};
use numbers::count::{Packets, Slots};
use numbers::size::LONGEST_DELAY;
use orders::refusal::Refusal;
use refusals::lengths::{counts_refusal, length_refusal, list_refusal, lists_refusal};
use refusals::limits::set_up_refusal;
use rivals::judge::{Judgement, PERMITTED, judge};

// What a slot lacks: an admitted link that holds, or a departed one.
#[derive(Clone, Copy, PartialEq, Eq)]
enum Lack {
    Admitted,
    Departed,
}

impl Lack {
    // Its number in a judgement.
    fn number(self) -> u32
        ensures { result ≡ lack_number (Some self) }
    {
        match self {
            Lack::Admitted => 6,
            Lack::Departed => 7,
        }
    }
}

// The links of the slots: first slots and marks of the admitted ones, and first slots of the departed ones.
#[derive(Clone, Copy)]
struct Lists<'a> {
    from: &'a [u32],
    by: &'a [u32],
    gone: &'a [u32],
}

// A set-up and a trace, anyone's rows for it, and the links that are to certify them.
#[derive(Clone, Copy)]
struct Certificate<'a> {
    table: &'a [u32],
    delay: Slots,
    buffer: Packets,
    arrivals: &'a [u32],
    admitted: &'a [u32],
    departed: &'a [u32],
    links: Lists<'a>,
}

impl<'a> Certificate<'a> {
    // 11: one of the five lists not as long as the trace.
    #[tactic(auto, unfolding(crate::specs::Checked::five_lists_refusal), using(orders::proofs::Given::refused_first, orders::proofs::Given::passed_first))]
    fn lists_refusal(&self) -> Result<(), Refusal>
        ensures { number_given result ≡ five_lists_refusal (claimed self.now) }
    {
        let slots = self.arrivals.len();
        list_refusal(slots, self.admitted.len())?;
        list_refusal(slots, self.departed.len())?;
        lists_refusal(
            slots,
            self.links.from.len(),
            self.links.by.len(),
            self.links.gone.len(),
        )
    }

    // Set-up, 10, 11, 8.
    #[tactic(auto, unfolding(crate::specs::Checked::certificate_refusal), using(orders::proofs::Given::refused_first, orders::proofs::Given::passed_first))]
    fn refusal(&self) -> Result<(), Refusal>
        ensures { number_given result ≡ certificate_refusal (claimed self.now) }
    {
        set_up_refusal(self.table, self.delay, self.buffer)?;
        length_refusal(self.arrivals.len())?;
        self.lists_refusal()?;
        counts_refusal(self.arrivals)
    }

    // What the links of rows that are permitted lack first.
    fn links_answer(&self) -> Judgement
        requires { (certificate_refusal (claimed self.now) ≡ 0) × ((rows_judged (claimed self.now)).rule ≡ 0) }
        ensures { result ≡ of_claim lack_answer (claimed self.now) }
    {
        let reach = self.arrivals.len() + LONGEST_DELAY as usize;
        let mut windows = [0; 4161];
        let mut arrived = [0; 4161];
        let mut admitted = [0; 4161];
        let mut departed = [0; 4161];
        window_row(self.table, reach, &mut windows);
        total_row(self.arrivals, &mut arrived);
        total_row(self.admitted, &mut admitted);
        total_row(self.departed, &mut departed);
        let rows = Rows {
            delay: self.delay.0,
            buffer: self.buffer.0 as u32,
            windows: &windows,
            arrived: &arrived,
            admitted: &admitted,
            departed: &departed,
        };
        rows.first_lack(&self.links)
    }
}

impl<'a> Rows<'a> {
    // What slot t lacks.
    fn lack_at(&self, links: &Lists, t: usize) -> Option<Lack>
        requires { Even links.now × (1 ≤ t) × (t ≤ length links.now.from.now) }
        ensures { (table trace : List ℕ) (u v : ℕ → ℕ) → RowsRead self.now table trace (length links.now.from.now) u v → lack_number result ≡ lack_at (envelope_of table) (delay_limit self.now.delay) (buffer_limit self.now.buffer) (regulators.arrivals trace) (length links.now.from.now) u v (links_in links.now) t }
    {
        let slots = links.from.len();
        let place = t - 1;
        if !self.admitted_holds(slots, t, links.from[place], links.by[place]) {
            Some(Lack::Admitted)
        } else if !self.departed_holds(slots, t, links.gone[place]) {
            Some(Lack::Departed)
        } else {
            None
        }
    }

    // The first slot that lacks a link, and what it lacks; all 0 where none does.
    fn first_lack(&self, links: &Lists) -> Judgement
        requires { Even links.now }
        ensures { (table trace : List ℕ) (u v : ℕ → ℕ) → RowsRead self.now table trace (length links.now.from.now) u v → result ≡ lack_answer (envelope_of table) (delay_limit self.now.delay) (buffer_limit self.now.buffer) (regulators.arrivals trace) (length links.now.from.now) u v (links_in links.now) }
    {
        for t in 1..links.from.len() + 1 {
            if let Some(lack) = self.lack_at(links, t) {
                return Judgement {
                    rule: lack.number(),
                    slot: t as u32,
                    ..PERMITTED
                };
            }
        }
        PERMITTED
    }
}

// Checks anyone's rows, packets admitted and departed in each slot of the trace, with the links that are to certify them: a refusal's
// number; or the rule that is broken first and where, 1 to 5 as `judge` has them; or the first slot whose links fail, 6 or 7; all 0
// where they are certified.
pub fn check_certificate(
    table: &[u32],
    delay: Slots,
    buffer: Packets,
    arrivals: &[u32],
    admitted: &[u32],
    departed: &[u32],
    admitted_from: &[u32],
    admitted_by: &[u32],
    departed_from: &[u32],
) -> Judgement
    ensures { result ≡ certificate_of (claim_of table.now delay.0 buffer.0 arrivals.now admitted.now departed.now admitted_from.now admitted_by.now departed_from.now) }
{
    let links = Lists {
        from: admitted_from,
        by: admitted_by,
        gone: departed_from,
    };
    let certificate = Certificate {
        table,
        delay,
        buffer,
        arrivals,
        admitted,
        departed,
        links,
    };
    if let Err(refusal) = certificate.refusal() {
        return Judgement {
            number: refusal.number(),
            ..PERMITTED
        };
    }
    let judgement = judge(table, delay, buffer, arrivals, admitted, departed);
    if judgement.rule != 0 {
        return judgement;
    }
    certificate.links_answer()
}
