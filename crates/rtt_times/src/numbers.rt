//! Which numbers of a stream were lost, and which came late.
ghost use Rattle.std.specs.Prelude.{◌≡◌, ◌<◌, ◌++◌, ◌∷◌, [], suc, IfOk, OnOk};
ghost use Rattle.std.specs.List.Sorted.{IsNonDecreasing, IsNonDecreasingBy};
ghost use Rattle.rtt_times.specs.Lines.{AddsLines};
ghost use Rattle.rtt_times.specs.Numbers.{AddsBefore, AddsMissing, AddsNumbers, AreAbove, AreLateNumbers, AreThere, IsLate, IsPart, due_number, gap_lines, has_due, late_among, late_lines};

use crate::lines::Lines;
use crate::stream_packets::{StreamPackets, TimedPacket};
use reorder_buffer::Due;
use rtt_base::NoMemory;
use std::alloc::Global;

/// Whether one of these, which rise in number, has the number.
fn is_used(used: &[Due], number: u64) -> bool
    requires { IsNonDecreasingBy due_number used.now }
    ensures { result ≡ has_due number used.now }
{
    let place = used.partition_point(|due| due.number < number);
    place < used.len() && used[place].number == number
}

/// Adds one whose number is not used.
fn add_unused(late: &mut Vec<TimedPacket>, used: &[Due], one: TimedPacket) -> Result<(), NoMemory>
    requires { IsNonDecreasingBy due_number used.now }
    ensures { OnOk result (late.new.items ≡ late.old.items ++ late_among used.now (one ∷ [])) }
{
    if is_used(used, one.number) {
        return Ok(());
    }
    late.push(one)?;
    Ok(())
}

/// Those of these whose number is not used, in their order.
fn unused_among(
    alloc: Global,
    used: &[Due],
    came: &[TimedPacket],
) -> Result<Vec<TimedPacket>, NoMemory>
    requires { IsNonDecreasingBy due_number used.now }
    ensures { IfOk result (λ late. late.items ≡ late_among used.now came.now) }
{
    let mut late = Vec::new(alloc);
    for index in 0..came.len() {
        add_unused(&mut late, used, came[index])?;
    }
    Ok(late)
}

/// The numbers of these, in their order.
fn numbers_of(alloc: Global, late: &[TimedPacket]) -> Result<Vec<u64>, NoMemory>
    ensures { IfOk result (λ numbers. AreLateNumbers late.now numbers.items) }
{
    let mut numbers = Vec::new(alloc);
    for index in 0..late.len() {
        numbers.push(late[index].number)?;
    }
    numbers.sort_unstable();
    Ok(numbers)
}

/// Adds a line for the numbers from `low` up to, but without, `high`, if there are some.
fn add_row(at: u64, ssrc: u32, low: u64, high: u64, lines: &mut Lines) -> Result<(), NoMemory>
    ensures { OnOk result (AddsMissing at ssrc [] low high lines.old lines.new) }
{
    if low >= high {
        return Ok(());
    }
    lines.add_lost(at, ssrc, low, high - 1)
}

/// Adds a line for the numbers from `low` up to this one, which came, where it is below `high`; and answers where what may be
/// lost goes on.
fn add_before(
    at: u64,
    ssrc: u32,
    low: u64,
    number: u64,
    high: u64,
    lines: &mut Lines,
) -> Result<u64, NoMemory>
    ensures { IfOk result (AddsBefore at ssrc low number high lines.old lines.new) }
{
    if low > number {
        return Ok(low);
    }
    if number >= high {
        return Ok(low);
    }
    add_row(at, ssrc, low, number, lines)?;
    Ok(number + 1)
}

/// Adds lines for the numbers from `low` up to, but without, `high`, that are none of these, which never fall.
fn add_rows(
    at: u64,
    ssrc: u32,
    low: u64,
    high: u64,
    late: &[u64],
    lines: &mut Lines,
) -> Result<(), NoMemory>
    requires { IsNonDecreasing late.now }
    ensures { OnOk result (AddsMissing at ssrc late.now low high lines.old lines.new) }
{
    let mut from = low;
    for index in 0..late.len() {
        let number = late[index];
        let next = add_before(at, ssrc, from, number, high, lines)?;
        from = next;
    }
    add_row(at, ssrc, from, high, lines)
}

/// The part of these, which never fall, from `low` up to, but without, `high`.
fn between(late: &[u64], low: u64, high: u64) -> &[u64]
    requires { IsNonDecreasing late.now }
    ensures part { IsPart low high late.now result.now }
    ensures rise { IsNonDecreasing result.now }
{
    let from = late.partition_point(|number| *number < low);
    let rest = &late[from..];
    let count = rest.partition_point(|number| *number < high);
    &rest[..count]
}

/// Adds lines for what was lost between two numbers that were used, the second ready at this moment.
fn add_gap(
    ssrc: u32,
    number: u64,
    next: Due,
    late: &[u64],
    lines: &mut Lines,
) -> Result<(), NoMemory>
    requires above { number < next.number }
    requires rise { IsNonDecreasing late.now }
    ensures { OnOk result (AddsMissing next.ready ssrc late.now (suc number) next.number lines.old lines.new) }
{
    let low = number + 1;
    if low == next.number {
        return Ok(());
    }
    let inside = between(late, low, next.number);
    add_rows(next.ready, ssrc, low, next.number, inside, lines)
}

/// Adds the lines of the numbers that no packet had: of those between two that are used, those that did not come late.
fn add_gaps(ssrc: u32, used: &[Due], late: &[u64], lines: &mut Lines) -> Result<(), NoMemory>
    requires above { AreAbove used.now }
    requires rise { IsNonDecreasing late.now }
    ensures { OnOk result (AddsLines lines.old (gap_lines ssrc late.now used.now) lines.new) }
{
    for index in 1..used.len() {
        let before = used[index - 1];
        let next = used[index];
        add_gap(ssrc, before.number, next, late, lines)?;
    }
    Ok(())
}

/// Adds the lines of these, which came late.
fn add_late(ssrc: u32, late: &[TimedPacket], lines: &mut Lines) -> Result<(), NoMemory>
    ensures { OnOk result (AddsLines lines.old (late_lines ssrc late.now) lines.new) }
{
    for index in 0..late.len() {
        let one = late[index];
        lines.add_late(one.time, ssrc, one.number)?;
    }
    Ok(())
}

/// Those of a stream that came late, in the order in which they came.
fn late_of(alloc: Global, heard: &StreamPackets) -> Result<Vec<TimedPacket>, NoMemory>
    requires { AreThere heard.now }
    ensures { IfOk result (λ late. IsLate heard.now late.items) }
{
    if heard.came.len() == heard.used.len() {
        return Ok(Vec::new(alloc));
    }
    unused_among(alloc, heard.used.as_slice(), heard.came.as_slice())
}

/// Adds the lines of what was lost, and then of what came late.
pub(crate) fn add_numbers(
    alloc: Global,
    ssrc: u32,
    heard: &StreamPackets,
    lines: &mut Lines,
) -> Result<(), NoMemory>
    requires { AreThere heard.now }
    ensures { OnOk result (AddsNumbers ssrc heard.now lines.old lines.new) }
{
    let late = late_of(alloc, heard)?;
    let numbers = numbers_of(alloc, late.as_slice())?;
    add_gaps(ssrc, heard.used.as_slice(), numbers.as_slice(), lines)?;
    add_late(ssrc, late.as_slice(), lines)
}
