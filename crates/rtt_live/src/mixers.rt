//! The mixer of a live call.
ghost use Rattle.std.specs.Prelude.{◌≡◌, ◌<◌, true, [], length, IfOk, IfErr};
ghost use Rattle.file_spec.specs.Conferences.{meaning_of};
ghost use Rattle.mixer_spec.specs.Setups.{AllStay, setup};
ghost use Rattle.mixer.specs.Making.{source_counts};
ghost use Rattle.mixer.specs.States.{legs_of, sources_of};
ghost use Rattle.mixer.specs.Standing.{MixerStandsFor};
ghost use Rattle.mixer_posts.specs.Streams.{payload_types_at};
ghost use Rattle.rtt_live.specs.Ends.{WereGiven, packets_in};
ghost use Rattle.rtt_live.specs.Mixers.{HasAll, SeatsAll, all_admitted};

use crate::FarEnds;
use file_spec::Conference;
use link_io::LinkOut;
use mixer::{Batch, Mixer};
use mixer_posts::SendingMixer;
use rtt_base::NoMemory;
use std::alloc::Global;

/// The mixer of this conference, all of whose legs came.
fn seated_mixer(alloc: Global, conference: &Conference) -> Result<Mixer, NoMemory>
    requires { AllStay (setup (meaning_of conference.now)) }
    ensures legs { IfOk result (λ mixer. legs_of mixer ≡ length conference.now.legs) }
    ensures turns { IfOk result (λ mixer. mixer.turns ≡ 0) }
    ensures sources { IfOk result (λ mixer. sources_of mixer ≡ source_counts (meaning_of conference.now)) }
    ensures stands { IfOk result (λ mixer. MixerStandsFor (setup (meaning_of conference.now)) mixer (all_admitted (length conference.now.legs))) }
{
    let mut mixer = Mixer::new(alloc, conference)?;
    for leg in 0..conference.legs.len() {
        mixer.admit(leg, true);
    }
    Ok(mixer)
}

/// The mixer of this conference, whose posts go to these ends. Each leg holds a place. Where memory runs out the ends come
/// back.
pub fn live_mixer<O: LinkOut>(
    alloc: Global,
    conference: &Conference,
    ends: FarEnds<O>,
) -> Result<SendingMixer<FarEnds<O>>, FarEnds<O>>
    requires stay { AllStay (setup (meaning_of conference.now)) }
    requires each { length ends.links.items ≡ length conference.now.legs }
    requires none { WereGiven O.tells (packets_in O.given) O.faults ends (setup (meaning_of conference.now))
        (payload_types_at (meaning_of conference.now)) [] }
    ensures legs { IfOk result (λ sending. legs_of sending.mixer ≡ length conference.now.legs) }
    ensures turns { IfOk result (λ sending. sending.mixer.turns ≡ 0) }
    ensures stands { IfOk result (HasAll O.tells (packets_in O.given) O.faults (meaning_of conference.now)) }
    ensures seats { IfOk result (λ _. SeatsAll (meaning_of conference.now)) }
    ensures outbound { IfOk result (λ sending. sending.outbound ≡ ends) }
    ensures back { IfErr result (λ back. back ≡ ends) }
{
    let Ok(mixer) = seated_mixer(alloc, conference) else {
        return Err(ends);
    };
    let Ok(batch) = Batch::new(alloc) else {
        return Err(ends);
    };
    Ok(SendingMixer::new(mixer, batch, ends))
}
