//! Who notes is given to links, and had back.
ghost use Rattle.std.specs.Prelude.{◌≡◌, ◌⊎◌, None, List, [], All, IfSome};
ghost use Rattle.std.specs.List.{AllZip};
ghost use Rattle.recorded_links.specs.declared.calls.CallTrack.{CallTrack};
ghost use Rattle.recorded_links.specs.Calls.{WaitsOn};
ghost use Rattle.recorded_links.specs.Kept.{IsGivenOut, IsHadBack, IsPlaceIn};
ghost use Rattle.recorded_links.specs.Shelves.{noted};

use crate::Way;
use crate::noter_places::NoterPlace;
use crate::noters::Noter;

impl<R: Drop> NoterPlace<R> {
    // Who notes, for a link that is opened at this port, where it is its and none was opened before.
    fn give(&mut self, port: u16) -> Option<Noter<R>>
        ensures place { IsGivenOut port self.old self.new }
        ensures fresh { IfSome result (λ n. noted n.pass ≡ []) }
        ensures known { (rs : List CallTrack) → IsPlaceIn rs self.old → IfSome result (λ n. WaitsOn rs n.number n.pass) }
    {
        if self.given {
            return None;
        }
        if self.port != port {
            return None;
        }
        self.given = true;
        self.noter.take()
    }

    // Has back who notes at an end of this port and way that comes back: where it is the one that was given, in place of what was there, and
    // else nobody. The answer is who is left.
    fn take_back(&mut self, port: u16, way: Way, noter: Option<Noter<R>>) -> Option<Noter<R>>
        ensures place { IsHadBack port way noter self.old self.new }
        ensures left { (result ≡ noter) ⊎ (result ≡ None) }
    {
        if !self.given {
            return noter;
        }
        if self.port != port {
            return noter;
        }
        if self.way != way {
            return noter;
        }
        self.noter = None;
        let Some(noter) = noter else {
            return None;
        };
        if noter.number != self.number {
            return Some(noter);
        }
        self.noter = Some(noter);
        None
    }
}

// The one, or where there is none the other.
fn first_of<R: Drop>(one: Option<Noter<R>>, other: Option<Noter<R>>) -> Option<Noter<R>>
    ensures { (result ≡ one) ⊎ (result ≡ other) }
{
    match one {
        Some(noter) => Some(noter),
        None => other,
    }
}

// Who notes at the two ends of a link: at that of this way who does already, and else this one.
fn with_one<R: Drop>(
    ends: (Option<Noter<R>>, Option<Noter<R>>),
    way: Way,
    noter: Option<Noter<R>>,
) -> (Option<Noter<R>>, Option<Noter<R>>)
    ensures inbound { (result.0 ≡ ends.0) ⊎ (result.0 ≡ noter) }
    ensures outbound { (result.1 ≡ ends.1) ⊎ (result.1 ≡ noter) }
{
    let (inbound, outbound) = ends;
    match way {
        Way::In => (first_of(inbound, noter), outbound),
        Way::Out => (inbound, first_of(outbound, noter)),
    }
}

/// Who notes at the two ends of a link that is opened at this port, where somebody does.
pub(crate) fn give_out<R: Drop>(
    places: &mut [NoterPlace<R>],
    port: u16,
) -> (Option<Noter<R>>, Option<Noter<R>>)
    ensures places { AllZip (IsGivenOut port) places.old places.new }
    ensures fresh_in { IfSome result.0 (λ n. noted n.pass ≡ []) }
    ensures fresh_out { IfSome result.1 (λ n. noted n.pass ≡ []) }
    ensures known_in { (rs : List CallTrack) → All (IsPlaceIn rs) places.old → IfSome result.0 (λ n. WaitsOn rs n.number n.pass) }
    ensures known_out { (rs : List CallTrack) → All (IsPlaceIn rs) places.old → IfSome result.1 (λ n. WaitsOn rs n.number n.pass) }
{
    let mut ends = (None, None);
    for number in 0..places.len() {
        let place = &mut places[number];
        let noter = place.give(port);
        ends = with_one(ends, place.way, noter);
    }
    ends
}

/// Has back who notes at an end of this port and way.
pub(crate) fn take_back<R: Drop>(
    places: &mut [NoterPlace<R>],
    port: u16,
    way: Way,
    noter: Option<Noter<R>>,
)
    ensures { AllZip (IsHadBack port way noter) places.old places.new }
{
    let mut left = noter;
    for number in 0..places.len() {
        left = places[number].take_back(port, way, left);
    }
}
