//! Whom the terminal of a leg hears.
ghost use Rattle.std.specs.Prelude.{◌≡◌};
ghost use Rattle.file_spec.specs.Conferences.{meaning_of};
ghost use Rattle.rtt_live.specs.Speakers.{terminal_settings};

use file_spec::{Conference, LegLine};
use terminal::TerminalSettings;

/// What the terminal of a leg hears.
pub(crate) fn settings_at(conference: &Conference, leg: &LegLine) -> TerminalSettings
    ensures { result ≡ terminal_settings (meaning_of conference.now) leg.now }
{
    TerminalSettings {
        ssrc: conference.mixer.ssrc,
        payload_types: leg.payload_types,
        wait: u64::from(conference.wait),
    }
}
