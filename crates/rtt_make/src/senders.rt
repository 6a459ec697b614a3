//! What the legs send of their scripts.
ghost use Rattle.std.specs.Prelude.{◌≡◌, ◌<◌, length, IfOk};
ghost use Rattle.command_spec.specs.Making.{recording_at, recordings};
ghost use Rattle.rtt_make.specs.Mades.{made_of, IsGenerated};

use crate::Made;
use crate::legs::leg_ssrc;
use rtt_base::{Bytes, NoMemory};
use std::alloc::Global;
use text_conversions::{SendFault, send_script, usual_settings};

/// The recording of what a leg sends of its script.
fn recording_of(alloc: Global, made: &Made, leg: usize) -> Result<Bytes, NoMemory>
    requires generated { IsGenerated made.now }
    requires within { leg < length made.now.scripts }
    ensures { IfOk result (λ octets. octets ≡ recording_at (made_of made.now) leg) }
{
    let settings = usual_settings(leg_ssrc(leg as u32), made.seqs.as_slice()[leg], 0);
    match send_script(alloc, &made.scripts.as_slice()[leg], settings) {
        Ok(octets) => Ok(octets),
        Err(SendFault::Full { line: _ }) => unreachable!(),
        Err(SendFault::NoMemory) => Err(NoMemory),
    }
}

/// The recordings of what the legs send, in leg order.
pub fn recordings_of(alloc: Global, made: &Made) -> Result<Vec<Bytes>, NoMemory>
    requires { IsGenerated made.now }
    ensures { IfOk result (λ all. all.items ≡ recordings (made_of made.now)) }
{
    let mut all = Vec::new(alloc);
    for leg in 0..made.scripts.as_slice().len() {
        let octets = recording_of(alloc, made, leg)?;
        all.push(octets)?;
    }
    Ok(all)
}
