//! What becomes of the packets of a conference.
ghost use Rattle.std.specs.Prelude.{◌≡◌};
ghost use Rattle.std.specs.List.{list_any};
ghost use Rattle.file_spec.specs.Conference.{is_same_packet, is_same_word};

use crate::{PlanLine, What};
use rtt_base::GrowingList;

/// Plan lines in the file's order.
pub type Plan = GrowingList<PlanLine>;

fn is_same_event(one: What, other: What) -> bool
    ensures { result ≡ is_same_word one other }
{
    match (one, other) {
        (What::Lose, What::Lose) => true,
        (What::Delay(_), What::Delay(_)) => true,
        (What::Twice, What::Twice) => true,
        _ => false,
    }
}

fn is_same(one: &PlanLine, other: &PlanLine) -> bool
    ensures { result ≡ is_same_packet one.now other.now }
{
    one.packet == other.packet
        && one.terminal == other.terminal
        && is_same_event(one.what, other.what)
}

/// Whether one of these lines says the same of a packet.
pub fn is_planned(plan: &[PlanLine], line: &PlanLine) -> bool
    ensures { result ≡ list_any (λ p. is_same_packet p line.now) plan.now }
{
    plan.iter().any(|above| is_same(above, line))
}
