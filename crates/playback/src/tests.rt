//! What comes by a plan, worked out by hand.
ghost use Rattle.std.specs.Prelude.{◌<◌, ◌^◌, length};

use crate::{Arrival, arrivals};
use file_spec::{PlanLine, What};
use std::test::Fail;

/// A line about a packet to terminal 3.
fn line(packet: u32, what: What) -> PlanLine {
    PlanLine {
        terminal: 3,
        packet,
        what,
    }
}

/// Whether this comes to terminal 3, as moments and packets.
fn comes(
    rt: &HostRuntime,
    plan: &[PlanLine],
    sent: &[u32],
    wanted: &[(u64, u32)],
) -> Result<bool, Fail>
    requires { length sent.now < 2 ^ 32 }
{
    let come = arrivals(rt.alloc(), plan, 3, sent)?;
    let mut same = come.len() == wanted.len();
    for (arrival, (at, index)) in come.as_slice().iter().zip(wanted) {
        same &= *arrival
            == Arrival {
                at: *at,
                index: *index,
            };
    }
    Ok(same)
}

#[test]
fn lost_packets_do_not_come(rt: HostRuntime) -> Result<(), Fail> {
    let plan = [
        line(1, What::Twice),
        line(1, What::Lose),
        line(3, What::Lose),
        line(1, What::Delay(50)),
    ];
    let wanted = [(0, 0), (200, 2), (400, 4)];
    assert!(rt; comes(&rt, &plan, &[0, 100, 200, 300, 400], &wanted)?);
    Ok(())
}

#[test]
fn a_late_packet_comes_behind_those_sent_meanwhile(rt: HostRuntime) -> Result<(), Fail> {
    let plan = [line(0, What::Delay(250)), line(1, What::Delay(200))];
    // At 300 packets 1 and 3 come together.
    let wanted = [(200, 2), (250, 0), (300, 1), (300, 3)];
    assert!(rt; comes(&rt, &plan, &[0, 100, 200, 300], &wanted)?);
    Ok(())
}

#[test]
fn both_copies_come_at_the_first_delay(rt: HostRuntime) -> Result<(), Fail> {
    let plan = [
        line(0, What::Delay(150)),
        line(0, What::Twice),
        line(0, What::Delay(0)),
    ];
    let wanted = [(100, 1), (150, 0), (150, 0)];
    assert!(rt; comes(&rt, &plan, &[0, 100], &wanted)?);
    Ok(())
}

#[test]
fn lines_of_other_terminals_and_of_packets_that_were_not_sent_change_nothing(
    rt: HostRuntime,
) -> Result<(), Fail> {
    let other = PlanLine {
        terminal: 2,
        packet: 0,
        what: What::Lose,
    };
    let plan = [other, line(2, What::Lose), line(4294967295, What::Twice)];
    assert!(rt; comes(&rt, &plan, &[0, 4294967295], &[(0, 0), (4294967295, 1)])?);
    Ok(())
}
