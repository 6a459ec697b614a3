//! What a leg is asked for.
use receiver::EarSettings;

/// Which packets are heard of a leg: those that the ear is asked for, or, where the leg is followed, those of whoever sends.
#[derive(Clone, Copy, Debug, PartialEq, Eq)]
pub struct LegSettings {
    /// Its SSRC is heard of a leg that is not followed.
    pub ear: EarSettings,
    /// Whether the leg is followed: a terminal that begins anew draws a new SSRC.
    pub follow: bool,
}
