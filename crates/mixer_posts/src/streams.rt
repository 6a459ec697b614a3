//! The stream to each terminal of a conference, and its sources.
ghost use Rattle.std.specs.Prelude.{◌≡◌, ◌<◌, IfOk, Some, length, map, slice_get};
ghost use Rattle.mixer_spec.specs.Setups.{setup};
ghost use Rattle.file_spec.specs.Conferences.{meaning_of};
ghost use Rattle.packetizer.specs.OutputSettings.{AreSettings};
ghost use Rattle.packetizer.specs.Speakers.{AreDistinct};
ghost use Rattle.mixer.specs.Making.{source_counts};
ghost use Rattle.mixer_posts.specs.Streams.{AreSourcesAt, settings_at, payload_types_at};

use file_spec::{Conference, LegLine};
use packetizer::PacketizerSettings;
use rtt_base::NoMemory;
use std::alloc::Global;

/// The stream to the terminal of the leg with this number.
pub fn stream_to(conference: &Conference, own: usize) -> PacketizerSettings
    requires { own < length conference.now.legs }
    ensures stream { result ≡ settings_at (setup (meaning_of conference.now))
        (payload_types_at (meaning_of conference.now) own) own }
    ensures settings { AreSettings result }
{
    let leg = &conference.legs.as_slice()[own];
    PacketizerSettings {
        ssrc: conference.mixer.ssrc,
        seq: conference.mixer.seq,
        timestamp: conference.mixer.timestamp,
        payload_types: leg.payload_types,
        generations: leg.generations,
    }
}

/// The SSRC of each leg, in leg order.
pub fn ssrcs_of(alloc: Global, legs: &[LegLine]) -> Result<Vec<u32>, NoMemory>
    ensures { IfOk result (λ ssrcs. ssrcs.items ≡ map (λ leg. leg.ssrc) legs.now) }
{
    let mut ssrcs = Vec::with_capacity(alloc, legs.len())?;
    for leg in legs {
        ssrcs.push(leg.ssrc)?;
    }
    Ok(ssrcs)
}

/// The SSRCs of the sources of the terminal of the leg with this number: those of all legs where it is aware, else the mixer's
/// alone.
pub fn sources_to(alloc: Global, conference: &Conference, own: usize) -> Result<Vec<u32>, NoMemory>
    requires { own < length conference.now.legs }
    ensures are { IfOk result (λ v. AreSourcesAt (setup (meaning_of conference.now)) own v.items) }
    ensures distinct { IfOk result (λ v. AreDistinct v.items) }
    ensures count { IfOk result (λ v. slice_get (source_counts (meaning_of conference.now)) own
        ≡ Some (length v.items)) }
{
    let leg = &conference.legs.as_slice()[own];
    if leg.aware {
        return ssrcs_of(alloc, conference.legs.as_slice());
    }
    let mut sources = Vec::with_capacity(alloc, 1)?;
    sources.push(conference.mixer.ssrc)?;
    Ok(sources)
}
