//! Lists of what runs: all start, and all are joined.
ghost use Rattle.std.specs.Prelude.{◌≡◌, ◌≤◌, [], vec_len};
ghost use Rattle.std.specs.Vec.{vec_capacity};
ghost use Rattle.workers.specs.Lanes.{AreBack, AreNew, AreStarted};
ghost use Rattle.workers.specs.Rooms.{HasRoom, HasRoomBack};

use crate::Producer;
use crate::ends::WorkerEnds;
use crate::lanes::Worker;
use crate::rooms::{WorkerRoom, WorkerSet};
use crate::starts::start_lane;
use core::thread::Stack;
use rtt_io::Gate;
use std::sync::Wait;
use std::thread::{Scope, Threads};

/// Starts all that is in a list.
fn start_all<
    's,
    'e,
    Q: Drop + Send + 's,
    F: Producer<Q> + Send + 's,
    R: Wait + Sync,
    G: Gate + Copy + Send + 's,
>(
    scope: &'s Scope<'s, &'e ()>,
    rt: &'s R,
    gate: G,
    stack: usize,
    gives: Vec<F>,
    mut ends: Vec<WorkerEnds<Q>>,
    mut lanes: Vec<Worker<Q, F, G>>,
) -> Vec<Worker<Q, F, G>>
    requires new { AreNew F.stands gives.items }
    requires ends { vec_len ends ≡ vec_len gives }
    requires none { lanes.items ≡ [] }
    requires room { vec_len gives ≤ vec_capacity lanes }
    ensures { AreStarted F.stands gives.items result.items }
{
    let mut rest = gives.into_iter();
    let mut number = 0;
    while let Some(leg) = rest.next() {
        let Some(end) = ends.pop() else {
            unreachable!()
        };
        let size = Stack::new().stack_size(stack);
        let lane = start_lane(scope, rt, gate, size, leg, number, end);
        number = number.wrapping_add(1);
        lanes.push_reserved(lane);
    }
    rest.destroy_empty();
    lanes
}

/// Starts all that is in a list, each on a thread of so many octets of stack. What can't be started on a thread is stepped where its
/// items are popped. The gate knows each by its place in the list.
pub fn start_lanes<
    's,
    'e,
    Q: Drop + Send + 's,
    F: Producer<Q> + Send + 's,
    R: Wait + Sync,
    G: Gate + Copy + Send + 's,
>(
    scope: &'s Scope<'s, &'e ()>,
    rt: &'s R,
    gate: G,
    stack: usize,
    gives: Vec<F>,
    room: WorkerRoom<Q, F, G>,
) -> WorkerSet<Q, F, G>
    requires new { AreNew F.stands gives.items }
    requires room { HasRoom (vec_len gives) room }
    ensures lanes { AreStarted F.stands gives.items result.lanes.items }
    ensures back { HasRoomBack (vec_len gives) result.back }
{
    let WorkerRoom { ends, lanes, back } = room;
    let lanes = start_all(scope, rt, gate, stack, gives, ends, lanes);
    WorkerSet { lanes, back }
}

/// Joins all lanes, and has back what gives. What was popped of each is the first of what it gave.
pub fn join_lanes<Q: Drop, F: Producer<Q>, R: Threads, G: Gate + Copy>(
    rt: &R,
    lanes: Vec<Worker<Q, F, G>>,
    mut back: Vec<F>,
) -> Vec<F>
    requires { HasRoomBack (vec_len lanes) back }
    ensures { AreBack F.stands lanes.items result.items }
{
    let mut rest = lanes.into_iter();
    while let Some(lane) = rest.next() {
        let gives = lane.close(rt);
        back.push_reserved(gives);
    }
    rest.destroy_empty();
    back
}
