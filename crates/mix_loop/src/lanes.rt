//! A lane of what gives answers, as where a leg's texts come from.
use crate::answers::Answer;
use crate::inlet_answers::hand_out;
use crate::inlets::Inlet;
use crate::items::Item;
use rtt_base::Chunk;
use rtt_io::Gate;
use std::sync::Wait;
use workers::{Producer, Worker};

impl<F: Copy + Drop, L: Producer<Answer<F>>, G: Gate> Inlet for Worker<Answer<F>, L, G> {
    ghost use Rattle.mix_loop.specs.Lanes.{LaneStands};

    type Fault = F;

    ghost stands = { LaneStands L.stands };

    ghost good = { λ l. Unit {0} };

    ghost nearer = { λ old new. Unit {0} };

    /// What is given was popped. That the queue is asked, and the leg stepped or its thread waited for where nothing is there, is
    /// tested.
    fn next<R: Wait>(&mut self, rt: &R, chunk: &mut Chunk) -> Item<F> {
        match self.pop(rt) {
            Some(answer) => {
                let item = hand_out(&answer, chunk);
                self.give_back(rt, answer);
                item
            }
            None => {
                self.wait(rt);
                Item::Later
            }
        }
    }
}
