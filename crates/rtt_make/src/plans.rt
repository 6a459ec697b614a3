//! What becomes of packets.
ghost use Rattle.std.specs.Prelude.{◌≡◌, ◌<◌, ◌≤◌, ◌++◌, ◌∷◌, [], IfOk, OnOk, if◌then◌else◌};
ghost use Rattle.std.specs.List.{list_any};
ghost use Rattle.file_spec.specs.Conference.{is_same_packet};
ghost use Rattle.command_spec.specs.Draws.{times};
ghost use Rattle.command_spec.specs.Generated.{plan_line, what, without_repeats};

use crate::draws::Draws;
use file_spec::{Plan, PlanLine, What, is_planned};
use rtt_base::NoMemory;
use std::alloc::Global;

/// How many lines are drawn.
const LINES: u32 = 200;
/// The lines are about the first packets, so many.
const PACKETS: u32 = 400;
/// A delay is below this, in milliseconds.
const DELAYS: u32 = 2000;

/// Draws what becomes of a packet: in two of four cases it is lost.
fn draw_what(draws: &mut Draws) -> What
    ensures { what draws.old ≡ (result, draws.new) }
{
    match draws.draw(4) {
        2 => What::Delay(draws.draw(DELAYS)),
        3 => What::Twice,
        _ => What::Lose,
    }
}

/// Draws a line about a packet to one of so many legs.
#[tactic(auto, unfolding(command_spec::specs::Generated::plan_line))]
fn draw_line(draws: &mut Draws, legs: u32) -> PlanLine
    requires some { 0 < legs }
    requires few { legs ≤ 16 }
    ensures { plan_line legs draws.old ≡ (result, draws.new) }
{
    let terminal = draws.draw(legs) as u8;
    let packet = draws.draw(PACKETS);
    let what = draw_what(draws);
    PlanLine {
        terminal,
        packet,
        what,
    }
}

/// Appends a line, unless one before it says the same of a packet.
fn add(plan: &mut Plan, line: PlanLine) -> Result<(), NoMemory>
    ensures { OnOk result (plan.new ≡ (if list_any (λ p. is_same_packet p line) plan.old then plan.old else plan.old ++ line ∷ [])) }
{
    if is_planned(plan.as_slice(), &line) {
        return Ok(());
    }
    plan.push(line)
}

/// Draws the lines of a plan for so many legs. A line that says the same of a packet as one before it is left out.
pub(crate) fn draw_plan(alloc: Global, draws: &mut Draws, legs: u32) -> Result<Plan, NoMemory>
    requires some { 0 < legs }
    requires few { legs ≤ 16 }
    ensures lines { IfOk result (λ plan. plan ≡ without_repeats (times LINES (plan_line legs) draws.old).0) }
    ensures state { IfOk result (λ _. draws.new ≡ (times LINES (plan_line legs) draws.old).1) }
{
    let mut plan = Plan::new(alloc);
    for _ in 0..LINES {
        let line = draw_line(draws, legs);
        add(&mut plan, line)?;
    }
    Ok(plan)
}
