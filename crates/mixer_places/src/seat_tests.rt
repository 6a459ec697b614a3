//! Places that are used again.
use crate::SeatingPlan;
use std::process::Abort;
use std::test::Fail;

#[test]
fn a_leg_comes_to_the_lowest_place_that_was_left(rt: HostRuntime) -> Result<(), Fail> {
    let mut seating = SeatingPlan::new(rt.alloc(), 17)?;
    for leg in 0..16 {
        assert!(rt; leg < seating.legs());
        assert!(rt; seating.admit(leg, true));
    }
    assert!(rt; seating.legs() == 17);
    assert!(rt; !seating.admit(16, true));
    seating.free(7);
    seating.free(3);
    assert!(rt; seating.admit(16, true));
    assert_eq!(rt; seating.place_of(16), Some(3));
    assert_eq!(rt; seating.leg_at(3), Some(16));
    Ok(())
}
