//! The copies that come, in their order.
ghost use Rattle.std.specs.Prelude.{◌≡◌, ℕ, ◌+◌, ◌++◌, ◌<◌, ◌^◌, List, length, All, OnOk, IfOk};
ghost use Rattle.file_spec.specs.declared.conference_lines.PlanLine.{PlanLine};
ghost use Rattle.file_spec.specs.declared.conference_lines.What.{What};
ghost use Rattle.mixer_spec.specs.Arrives.{Copy, arrives, copies, times_in};
ghost use Rattle.playback.specs.Fates.{fate_of, AreFates};
ghost use Rattle.playback.specs.Arriving.{copies_of, times_of, AreCopies, IsOfFirst};

use crate::fates::{Fate, fates_of};
use file_spec::PlanLine;
use rtt_base::NoMemory;
use std::alloc::Global;

/// A packet that comes to a terminal. Arrivals are ordered by their moments, and those of one moment by their packets.
#[derive(Clone, Copy, Debug, PartialEq, Eq, PartialOrd, Ord)]
pub struct Arrival {
    /// The moment, in milliseconds.
    pub at: u64,
    /// Which packet it is, counted from 0 in the order in which they were sent.
    pub index: u32,
}

/// Appends the copies that come of a packet with this fate.
fn append_copies(fate: Fate, index: u32, sent: u32, out: &mut Vec<Arrival>) -> Result<(), NoMemory>
    ensures copies { (lines : List What) → fate ≡ fate_of lines → OnOk result (copies_of out.new.items ≡ copies_of out.old.items ++ copies lines index sent) }
    ensures sent { (n : ℕ) → index < n → All (IsOfFirst n) out.old.items → OnOk result (All (IsOfFirst n) out.new.items) }
{
    if fate.lost {
        return Ok(());
    }
    let at = u64::from(sent) + u64::from(fate.delay);
    out.push(Arrival { at, index })?;
    if fate.twice {
        out.push(Arrival { at, index })?;
    }
    Ok(())
}

/// Appends the copies that come of a packet with this fate to those in time or to the late ones.
fn append_either(
    fate: Fate,
    index: u32,
    sent: u32,
    in_time: &mut Vec<Arrival>,
    late: &mut Vec<Arrival>,
) -> Result<(), NoMemory>
    ensures times { (lines : List What) → fate ≡ fate_of lines → OnOk result ((c : Copy) → times_of c in_time.new.items + times_of c late.new.items ≡ times_of c in_time.old.items + times_of c late.old.items + times_in c (copies lines index sent)) }
    ensures sent { (n : ℕ) → index < n → All (IsOfFirst n) in_time.old.items → OnOk result (All (IsOfFirst n) in_time.new.items) }
    ensures late { (n : ℕ) → index < n → All (IsOfFirst n) late.old.items → OnOk result (All (IsOfFirst n) late.new.items) }
{
    if fate.delay == 0 {
        append_copies(fate, index, sent, in_time)
    } else {
        append_copies(fate, index, sent, late)
    }
}

/// The copies of packets with these fates: those in time packet by packet, and the late ones behind them, so that most
/// stand in order already.
fn copies_with(alloc: Global, fates: &[Fate], sent: &[u32]) -> Result<Vec<Arrival>, NoMemory>
    requires count { length sent.now ≡ length fates.now }
    requires few { length sent.now < 2 ^ 32 }
    ensures copies { (plan : List PlanLine) (t : ℕ) → AreFates plan t fates.now → IfOk result (λ copies. AreCopies plan t sent.now copies.items) }
    ensures sent { IfOk result (λ copies. All (IsOfFirst (length sent.now)) copies.items) }
{
    let mut copies = Vec::with_capacity(alloc, sent.len())?;
    let mut late = Vec::new(alloc);
    for index in 0..sent.len() {
        append_either(
            fates[index],
            index as u32,
            sent[index],
            &mut copies,
            &mut late,
        )?;
    }
    copies.append(&mut late)?;
    Ok(copies)
}

/// What comes to a terminal of a conference, by the lines of its plan, of the packets that were sent to it at these
/// moments, in milliseconds: packet `k` at `sent[k]`. A packet is lost, comes late or comes twice as its lines say, and
/// late by the first of them that delays it. What comes is ordered by its moments, and at one moment by its packets.
///
/// The work grows with the packets, where their moments never fall, and with the plan's lines times their logarithm.
pub fn arrivals(
    alloc: Global,
    plan: &[PlanLine],
    terminal: u8,
    sent: &[u32],
) -> Result<Vec<Arrival>, NoMemory>
    requires { length sent.now < 2 ^ 32 }
    ensures exact { IfOk result (λ arrivals. copies_of arrivals.items ≡ arrives plan.now terminal sent.now) }
    ensures sent { IfOk result (λ arrivals. All (IsOfFirst (length sent.now)) arrivals.items) }
{
    let fates = fates_of(alloc, plan, terminal, sent.len())?;
    let mut copies = copies_with(alloc, fates.as_slice(), sent)?;
    copies.sort()?;
    Ok(copies)
}
