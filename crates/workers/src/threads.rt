//! A feed on a thread of its own.
ghost use Rattle.std.specs.Prelude.{◌≡◌};
ghost use Rattle.workers.specs.Passes.{IsPushOf};
ghost use Rattle.workers.specs.Feeds.{Follows};

use crate::feeds::Feed;
use crate::gives::Producer;
use crate::passes::ItemQueue;
use std::sync::Wait;
use std::sync::atomic::{AtomicBool, Ordering};

/// Sleeps until there is room, where an item waits for it.
fn wait_for_room<Q: Drop, F: Producer<Q>, R: Wait>(
    rt: &R,
    feed: &Feed<Q, F>,
    queue: &ItemQueue<Q>,
) {
    if !feed.is_empty() {
        queue.wait_for_room(rt);
    }
}

/// Steps a feed, and gives it back: whatever it began with, it still stands for. That it steps until its last item was pushed,
/// or `alone` says that the caller wants it back, is tested. Where the queue is full it sleeps, and who pops wakes it now and
/// then.
pub fn run_feed<Q: Drop, F: Producer<Q>, R: Wait>(
    rt: &R,
    mut feed: Feed<Q, F>,
    queue: &ItemQueue<Q>,
    alone: &AtomicBool,
) -> Feed<Q, F>
    requires pass { IsPushOf queue.now feed.pass }
    ensures queue { IsPushOf queue.now result.pass }
    ensures follows { Follows F.stands feed result }
{
    for _ in rt.forever() {
        if feed.is_done() || alone.load(Ordering::SeqCst) {
            break;
        }
        if feed.step(rt, queue) {
            break;
        }
        wait_for_room(rt, &feed, queue);
    }
    feed
}
