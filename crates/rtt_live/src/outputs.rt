//! The outputs to the terminals of a live call.
ghost use Rattle.std.specs.Prelude.{◌≡◌, ◌<◌, length, IfOk};
ghost use Rattle.file_spec.specs.Conferences.{meaning_of};
ghost use Rattle.rtt_live.specs.Outputs.{HasSentNone, NoneSent};

use file_spec::Conference;
use mixer_posts::{sources_to, stream_to};
use packetizer::Packetizer;
use rtt_base::NoMemory;
use std::alloc::Global;

/// The output to the terminal of a leg, to which nothing was sent.
fn output_of(alloc: Global, conference: &Conference, own: usize) -> Result<Packetizer, NoMemory>
    requires { own < length conference.now.legs }
    ensures { IfOk result (λ output. HasSentNone (meaning_of conference.now) own output) }
{
    let sources = sources_to(alloc, conference, own)?;
    let stream = stream_to(conference, own);
    Packetizer::new(alloc, stream, sources.as_slice())
}

/// The outputs to the terminals of all legs, in leg order.
pub(crate) fn outputs_of(
    alloc: Global,
    conference: &Conference,
) -> Result<Vec<Packetizer>, NoMemory>
    ensures each { IfOk result (λ outputs. length outputs.items ≡ length conference.now.legs) }
    ensures none { IfOk result (λ outputs. NoneSent (meaning_of conference.now) outputs.items) }
{
    let mut outputs = Vec::with_capacity(alloc, conference.legs.len())?;
    for own in 0..conference.legs.len() {
        outputs.push(output_of(alloc, conference, own)?)?;
    }
    Ok(outputs)
}
