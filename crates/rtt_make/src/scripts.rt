//! What one leg types.
ghost use Rattle.std.specs.Prelude.{◌≡◌, ◌≤◌, ◌<◌, IfOk};
ghost use Rattle.command_spec.specs.Generated.{script_from, typist};

use crate::draws::Draws;
use crate::texts::draw_text;
use rtt_base::{Bytes, NoMemory};
use script_text::{Script, ScriptLine};
use std::alloc::Global;

/// A first sequence number is below this, so that none of a leg wraps.
const FIRSTS: u32 = 32_768;
/// The first line is typed before this moment. Moments are in milliseconds.
const SOON: u32 = 1000;
/// How many lines a leg types.
const LINES: u32 = 40;
/// A line is typed so long after the one before it at least, and by less than `LONGER` later.
const PAUSE: u32 = 100;

const LONGER: u32 = 900;

/// What one leg types, and its first sequence number.
#[derive(Debug, Drop)]
pub(crate) struct Typist {
    pub seq: u16,
    pub script: Script,
}

/// Draws so many lines of a script, the first of them typed at this moment.
fn draw_script(alloc: Global, draws: &mut Draws, lines: u32, from: u32) -> Result<Script, NoMemory>
    requires few { lines ≤ LINES }
    requires soon { from < SOON }
    ensures { IfOk result (λ script. script_from lines from draws.old ≡ (script, draws.new)) }
{
    let mut script = Script::new(alloc);
    let mut text = Bytes::new(alloc);
    let mut at = from;
    for _ in 0..lines {
        draw_text(draws, &mut text)?;
        script.push(ScriptLine {
            line: 0,
            at,
            text: text.as_slice(),
        })?;
        at += PAUSE + draws.draw(LONGER);
    }
    Ok(script)
}

/// Draws what one leg types.
#[tactic(auto, unfolding(command_spec::specs::Generated::typist))]
pub(crate) fn draw_typist(alloc: Global, draws: &mut Draws) -> Result<Typist, NoMemory>
    ensures { IfOk result (λ t. typist draws.old ≡ (record { first = t.seq; script = t.script }, draws.new)) }
{
    let seq = draws.draw(FIRSTS) as u16;
    let from = draws.draw(SOON);
    let script = draw_script(alloc, draws, LINES, from)?;
    Ok(Typist { seq, script })
}
