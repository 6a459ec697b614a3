//! The names of the faults of scripts, conferences and frames.
ghost use Rattle.std.specs.Prelude.{◌≡◌};
ghost use Rattle.command_spec.specs.Messages.{conf_kind_name, frame_kind_name};

use file_spec::{ConfKind, FrameKind};

/// The name of a fault of a script or a conference.
pub fn conf_kind_name(kind: ConfKind) -> &'static [u8]
    ensures { result.now ≡ conf_kind_name kind }
{
    match kind {
        ConfKind::NotText => b"NotText",
        ConfKind::Word => b"Word",
        ConfKind::Count => b"Count",
        ConfKind::Name => b"Name",
        ConfKind::Number => b"Number",
        ConfKind::Many => b"Many",
        ConfKind::PlanMany => b"PlanMany",
        ConfKind::Twice => b"Twice",
        ConfKind::Clash => b"Clash",
        ConfKind::Few => b"Few",
        ConfKind::Crowd => b"Crowd",
        ConfKind::Large => b"Large",
        ConfKind::Order => b"Order",
        ConfKind::Escape => b"Escape",
        ConfKind::Long => b"Long",
        ConfKind::Full => b"Full",
    }
}

/// The name of a fault of frames.
pub fn frame_kind_name(kind: FrameKind) -> &'static [u8]
    ensures { result.now ≡ frame_kind_name kind }
{
    match kind {
        FrameKind::Time => b"Time",
        FrameKind::Length => b"Length",
        FrameKind::TooLarge => b"TooLarge",
        FrameKind::NotText => b"NotText",
        FrameKind::EndsInside => b"EndsInside",
        FrameKind::Full => b"Full",
        FrameKind::ManyFrames => b"ManyFrames",
    }
}
