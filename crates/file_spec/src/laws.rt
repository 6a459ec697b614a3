//! What holds of conferences. No code stands here.
ghost use Rattle.std.specs.Prelude.{◌≡◌, ℕ, List, Ok, true, false};
ghost use Rattle.file_spec.specs.declared.conference_lines.Form.{Form};
ghost use Rattle.file_spec.specs.declared.conference_lines.LegLine.{LegLine};
ghost use Rattle.file_spec.specs.Conference.{Conference, conference_from};
ghost use Rattle.file_spec.specs.Kept.{IsConference};
ghost use Rattle.file_spec.specs.Stays.{HasCrowd, NeverCrowd, is_crowd};

/// A conference that a file describes keeps all limits: its numbers are in their ranges, names, SSRCs and outputs
/// differ, each stay is not empty, at no moment too many legs stay, the plan is about packets to its legs, and an operator
/// is heard at no leg's port.
pub fn accepted_conferences_keep()
    ensures { (form : Form) (octets : List ℕ) (c : Conference) → conference_from form octets ≡ Ok c → IsConference c }
{}

/// Legs are tested for a crowd at the moments at which one comes. This finds each crowd, and nothing else.
pub fn crowds_are_seen()
    ensures all { (legs : List LegLine) → is_crowd legs ≡ false → NeverCrowd legs }
    ensures only { (legs : List LegLine) → is_crowd legs ≡ true → HasCrowd legs }
{}
