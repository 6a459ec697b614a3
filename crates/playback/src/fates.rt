//! What becomes of each packet.
ghost use Rattle.std.specs.Prelude.{◌≡◌, List, [], ◌∷◌, vec_len, IfOk};
ghost use Rattle.file_spec.specs.declared.conference_lines.PlanLine.{PlanLine};
ghost use Rattle.file_spec.specs.declared.conference_lines.What.{What};
ghost use Rattle.playback.specs.Fates.{fate_of, AreFates};

use file_spec::{PlanLine, What};
use rtt_base::NoMemory;
use std::alloc::Global;

/// What all plan lines of a packet make of it together.
#[derive(Clone, Copy, Debug, Default)]
pub(crate) struct Fate {
    pub lost: bool,
    pub twice: bool,
    /// How late it comes, in milliseconds.
    pub delay: u32,
}

impl Fate {
    /// The fate where one line more speaks of the packet, above the others: the first delay counts.
    fn with(self, what: What) -> Fate
        ensures { (lines : List What) → self ≡ fate_of lines → result ≡ fate_of (what ∷ lines) }
    {
        match what {
            What::Lose => Fate { lost: true, ..self },
            What::Delay(delay) => Fate { delay, ..self },
            What::Twice => Fate {
                twice: true,
                ..self
            },
        }
    }
}

/// Marks the packet of a line that stands above the others, where it is one of this terminal.
fn apply(fates: &mut [Fate], line: PlanLine, terminal: u8)
    ensures { (lines : List PlanLine) → AreFates lines terminal fates.old → AreFates (line ∷ lines) terminal fates.new }
{
    let place = line.packet as usize;
    if line.terminal == terminal && place < fates.len() {
        fates[place] = fates[place].with(line.what);
    }
}

/// The fate of each of so many packets to a terminal.
pub(crate) fn fates_of(
    alloc: Global,
    plan: &[PlanLine],
    terminal: u8,
    packets: usize,
) -> Result<Vec<Fate>, NoMemory>
    ensures count { IfOk result (λ fates. vec_len fates ≡ packets) }
    ensures fates { IfOk result (λ fates. AreFates plan.now terminal fates.items) }
{
    let mut fates = vec![in alloc; Fate::default(); packets]?;
    for line in plan.iter().rev() {
        apply(&mut fates, *line, terminal);
    }
    Ok(fates)
}
