//! The label that says who speaks, where one text has many speakers.
ghost use Rattle.std.specs.Prelude.{◌≡◌, ◌+◌, ◌≤◌, ◌++◌, length, true};
ghost use Rattle.view_spec.specs.TextViews.{label_after};
ghost use Rattle.mixer_spec.specs.Composed.{room_beside};
ghost use Rattle.mixer_spec.specs.Setups.{IsRoom};
ghost use Rattle.unaware_view.specs.Labels.{line_start};
ghost use Rattle.rtt_base.specs.declared.limits.TheConstants.{MOST_TEXT_OCTETS};

use rtt_base::{Name, Text};

/// How many octets the label of a name has at most besides the name.
const FRAME: usize = 6;

/// U+2028 where a line is open.
#[tactic(auto, using(view_spec::proofs::Separators::line_separator))]
fn line_start(is_open: bool) -> &'static str
    ensures is { result.now ≡ line_start is_open }
    ensures short { length result.now ≤ 3 }
{
    if is_open { "\u{2028}" } else { "" }
}

/// Appends octets, for which there must be room.
pub(crate) fn append(octets: &[u8], out: &mut Text)
    requires { length out.old + length octets.now ≤ MOST_TEXT_OCTETS }
    ensures { out.new ≡ out.old ++ octets.now }
{
    let Ok(()) = out.append(octets) else {
        unreachable!()
    };
}

/// Appends `[NAME] `, for which there must be room, on a line of its own: behind U+2028 where one is open.
#[tactic(auto, using(crate::proofs::Sizes::length_is, crate::proofs::Sizes::joined_is))]
pub(crate) fn label(name: &str, is_open: bool, out: &mut Text)
    requires { length out.old + length (label_after is_open name.now) ≤ MOST_TEXT_OCTETS }
    ensures { out.new ≡ out.old ++ label_after is_open name.now }
{
    append(line_start(is_open).as_bytes(), out);
    append(b"[", out);
    append(name.as_bytes(), out);
    append(b"] ", out);
}

/// How many octets of this room are left beside the label of this name on a line of its own.
#[tactic(auto, using(crate::proofs::Sizes::most_is))]
pub(crate) fn room_beside(room: usize, name: &Name) -> usize
    requires { IsRoom room }
    ensures value { result ≡ room_beside room name.now }
    ensures fits { length (label_after true name.now) + result ≤ MOST_TEXT_OCTETS }
{
    room - (FRAME + name.len())
}
