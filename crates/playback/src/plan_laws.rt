//! Laws of plans.
ghost use Rattle.std.specs.Prelude.{◌≡◌, ◌≢◌, ℕ, List, map, reverse};
ghost use Rattle.std.specs.List.Sorted.{IsNonDecreasing};
ghost use Rattle.file_spec.specs.declared.conference_lines.PlanLine.{PlanLine};
ghost use Rattle.wire_spec.specs.Packets.{Arrival};
ghost use Rattle.mixer_spec.specs.Arrives.{arrivals};
ghost use Rattle.playback.specs.Unplanned.{IsUnplanned};

/// Where no line of a plan is of a terminal, and the packets to it were sent in order of their moments, they come to it
/// as they were sent.
pub fn unplanned_packets_come_as_sent()
    ensures { (plan : List PlanLine) (t : ℕ) (sent : List Arrival) → IsUnplanned plan t
        → IsNonDecreasing (map (λ a. a.time) sent) → arrivals plan t sent ≡ reverse sent }
{}
