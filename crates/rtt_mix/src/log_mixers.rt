//! The mixer of a conference whose packets are noted in a log.
ghost use Rattle.std.specs.Prelude.{◌≡◌, length, IfOk};
ghost use Rattle.file_spec.specs.Conferences.{meaning_of};
ghost use Rattle.mixer.specs.States.{legs_of};
ghost use Rattle.rtt_mix.specs.Loggers.{IsUncalled};

use crate::logs::Log;
use file_spec::Conference;
use mixer::{Batch, Mixer};
use mixer_posts::SendingMixer;
use rtt_base::NoMemory;
use std::alloc::Global;

/// The mixer of this conference, of which no leg came, with a log in which nothing is noted. It takes all memory that it ever
/// needs but that of the log.
pub(crate) fn recording_mixer(
    alloc: Global,
    conference: &Conference,
) -> Result<SendingMixer<Log>, NoMemory>
    ensures legs { IfOk result (λ sending. legs_of sending.mixer ≡ length conference.now.legs) }
    ensures turns { IfOk result (λ sending. sending.mixer.turns ≡ 0) }
    ensures stands { IfOk result (IsUncalled (meaning_of conference.now)) }
{
    let Ok(mixer) = Mixer::new(alloc, conference) else {
        return Err(NoMemory);
    };
    let Ok(batch) = Batch::new(alloc) else {
        return Err(NoMemory);
    };
    let Ok(log) = Log::new(alloc, conference) else {
        return Err(NoMemory);
    };
    Ok(SendingMixer::new(mixer, batch, log))
}
