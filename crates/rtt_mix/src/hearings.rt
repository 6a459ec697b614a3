//! How the legs of a conference are heard.
ghost use Rattle.std.specs.Prelude.{◌≡◌, ◌≤◌};
ghost use Rattle.file_spec.specs.Conferences.{meaning_of};
ghost use Rattle.rtt_mix.specs.Opened.{hearing_of};
ghost use Rattle.rtt_base.specs.declared.limits.TheConstants.{LONGEST_WAIT};

use file_spec::Conference;
use receiver::TextCut;

/// How long a gap in the numbers of a leg's packets is waited for, in milliseconds, and how its texts are handed out.
#[derive(Clone, Copy, Debug, PartialEq, Eq)]
pub struct LegHearing {
    pub wait: u32,
    pub cut: TextCut,
}

impl LegHearing {
    /// That of a conference.
    pub fn of(conference: &Conference) -> LegHearing
        ensures value { result ≡ hearing_of (meaning_of conference.now) }
        ensures short { result.wait ≤ LONGEST_WAIT }
    {
        LegHearing {
            wait: conference.wait,
            cut: TextCut::within(conference.mtu),
        }
    }
}
