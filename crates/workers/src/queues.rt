//! What the calls at a queue say.
ghost use Rattle.std.specs.Prelude.{◌≡◌, ◌≤◌, List, [], ◌∷◌, ◌++◌, length, IfOk, IfErr, OnOk, OnErr, option_to_list};
ghost use Rattle.workers.specs.declared.limits.TheConstants.{MOST_QUEUED};
ghost use Rattle.workers.specs.Passes.{WasFull, IsPushOf, IsPopOf, pushed, popped};

use crate::limits::MOST_QUEUED;
use crate::passes::{ItemQueue, PopPass, PushPass};
use crate::reuse::Reusable;
use crate::rule::{BothEnds, PopRule, PushRule, RestRule, RuledQueue};
use crate::sleepers::Sleepers;
use crossbeam_queue::ArrayQueue;
use rtt_base::NoMemory;
use std::alloc::Global;
use std::sync::Wait;
use std::thread;

/// How many items there are: one for each place, and one for each end's hand.
const ITEMS: usize = MOST_QUEUED + 2;

/// After how many pops who sleeps while the queue is full is woken: most of the places are free then, and what is in the others
/// keeps who pops busy until the other is awake.
const POPS: u8 = 48;

/// How often who pops lets other threads go on, where it finds nothing, before it sleeps.
const YIELDS: u8 = 100;

/// So many items that are to be used.
fn blank_items<Q: Drop + Reusable>(alloc: Global) -> Result<ArrayQueue<Q>, NoMemory> {
    let Ok(mut spare) = ArrayQueue::new(alloc, ITEMS) else {
        return Err(NoMemory);
    };
    for _ in 0..ITEMS {
        let item = Q::blank(alloc)?;
        let _room = spare.push_mut(item);
    }
    Ok(spare)
}

/// How many times in a row nothing was there, where that was so before.
fn misses_after<Q>(item: &Option<Q>, misses: u8) -> u8 {
    if item.is_none() {
        misses.saturating_add(1)
    } else {
        0
    }
}

impl<Q: Drop> ItemQueue<Q> {
    /// A queue that holds nothing, and its two ends. It takes all memory that is ever needed.
    pub fn new(alloc: Global) -> Result<(ItemQueue<Q>, PushPass<Q>, PopPass<Q>), NoMemory>
    where
        Q: Reusable,
        ensures ends { IfOk result (λ q. IsPushOf q.0 q.1 × IsPopOf q.0 q.2) }
        ensures empty { IfOk result (λ q. (pushed q.1 ≡ []) × (popped q.2 ≡ [])) }
    {
        let Ok((line, mut push)) = RuledQueue::ruled(alloc, MOST_QUEUED) else {
            return Err(NoMemory);
        };
        let pop = line.another::<BothEnds>(&mut push);
        let spare = blank_items(alloc)?;
        let queue = ItemQueue {
            line,
            spare,
            sleepers: Sleepers::new(),
        };
        let pop = PopPass {
            pass: pop,
            asked: 0,
            misses: 0,
        };
        Ok((queue, PushPass { pass: push }, pop))
    }

    /// An item to write into. There is one, but for the moment in which the other end has it in hand.
    pub fn spare<R: Wait>(&self, rt: &R) -> Q {
        for _ in rt.forever() {
            if let Some(item) = self.spare.pop(rt) {
                return item;
            }
            thread::yield_now();
        }
        unreachable!()
    }

    /// Gives back an item that was read, to be used again.
    pub fn give_back<R: Wait>(&self, rt: &R, item: Q) {
        let _room = self.spare.push(rt, item);
    }

    /// Adds an item at the back, and wakes who pops where it sleeps; or gives the item back, only where at least 64 items were
    /// pushed. That they still wait then is tested.
    pub fn push<R: Wait>(&self, rt: &R, pass: &mut PushPass<Q>, item: Q) -> Result<(), Q>
        requires pass { IsPushOf self.now pass.old }
        ensures queue { IsPushOf self.now pass.new }
        ensures ok { OnOk result (pushed pass.new ≡ pushed pass.old ++ item ∷ []) }
        ensures unchanged { OnErr result (pushed pass.new ≡ pushed pass.old) }
        ensures back { IfErr result (λ x. x ≡ item) }
        ensures full { OnErr result (WasFull (pushed pass.old)) }
    {
        let answer = self.line.push_as::<PushRule, R>(rt, &mut pass.pass, item);
        self.sleepers.wake_popper();
        answer
    }

    /// Takes the item at the front, if there is one, and wakes who pushes now and then. That there is none only where the queue is
    /// empty is tested.
    pub fn pop<R: Wait>(&self, rt: &R, pass: &mut PopPass<Q>) -> Option<Q>
        requires { IsPopOf self.now pass.old }
        ensures queue { IsPopOf self.now pass.new }
        ensures popped { popped pass.new ≡ popped pass.old ++ option_to_list result }
    {
        let item = self.line.pop_as::<PopRule, R>(rt, &mut pass.pass);
        pass.misses = misses_after(&item, pass.misses);
        pass.asked = pass.asked.wrapping_add(1);
        if pass.asked % POPS == 0 {
            self.sleepers.wake_pusher();
        }
        item
    }

    /// Waits for something to be pushed. Where nothing was found so many times in a row, it sleeps.
    pub fn wait_for_item<R: Wait>(&self, rt: &R, pass: &PopPass<Q>) {
        if pass.misses < YIELDS {
            thread::yield_now();
        } else if pass.misses == YIELDS {
            self.sleepers.popper_will_sleep();
        } else {
            self.sleepers.popper_sleeps(rt);
        }
    }

    /// Sleeps until there is room.
    pub(crate) fn wait_for_room<R: Wait>(&self, rt: &R) {
        self.sleepers.pusher_sleeps(rt);
    }

    /// Compares the two ends, which are used up: what was pushed is what was popped, and then what is left.
    pub fn settle(&self, push: PushPass<Q>, pop: PopPass<Q>)
        requires { IsPushOf self.now push × IsPopOf self.now pop }
        ensures { (left : List _) × (pushed push ≡ popped pop ++ left) × (length left ≤ MOST_QUEUED) }
    {
        let PushPass { pass } = push;
        let mut all = pass;
        let PopPass {
            pass: other,
            asked: _,
            misses: _,
        } = pop;
        self.line.absorb::<BothEnds>(&mut all, other);
        self.line.learn_as::<RestRule>(&mut all);
    }
}
