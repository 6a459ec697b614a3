//! What a turn sends is given to an outbound.
ghost use Rattle.std.specs.Prelude.{◌≡◌, ◌<◌, OnOk, OnErr, IfErr};
ghost use Rattle.mixer.specs.Posts.{ArePosts};
ghost use Rattle.mix_loop.specs.Addresses.{GiveAfter};
ghost use Rattle.mixer_posts.specs.Posts.{TakesAll, TakesFirst};

use crate::PostSink;
use link_io::Beat;
use mixer::Post;

/// Gives these posts at the moment `now` (milliseconds), at this beat of the clock, one after the other.
pub(crate) fn send_posts<O: PostSink>(
    now: u64,
    beat: &Beat<'_, O::Clock>,
    posts: &[Post],
    outbound: &mut O,
) -> Result<(), O::Fault>
    requires moment { now < O.horizon }
    requires posts { ArePosts (O.sources outbound.old) posts.now }
    ensures took { OnOk result (TakesAll O.took outbound.old outbound.new now posts.now) }
    ensures halted { OnErr result (TakesFirst O.halted O.took outbound.old outbound.new now posts.now) }
    ensures unsent { IfErr result (O.unsent outbound.new) }
    ensures sources { O.sources outbound.new ≡ O.sources outbound.old }
    ensures addresses { GiveAfter beat.now.pauses (O.addresses outbound.old) (O.addresses outbound.new) }
{
    if posts.is_empty() {
        return Ok(());
    }
    send_each(now, beat, posts, outbound)
}

/// Gives these posts, one after the other. It stands apart, so that a turn in which nothing is sent does not prepare for it.
#[inline(never)]
fn send_each<O: PostSink>(
    now: u64,
    beat: &Beat<'_, O::Clock>,
    posts: &[Post],
    outbound: &mut O,
) -> Result<(), O::Fault>
    requires moment { now < O.horizon }
    requires posts { ArePosts (O.sources outbound.old) posts.now }
    ensures took { OnOk result (TakesAll O.took outbound.old outbound.new now posts.now) }
    ensures halted { OnErr result (TakesFirst O.halted O.took outbound.old outbound.new now posts.now) }
    ensures unsent { IfErr result (O.unsent outbound.new) }
    ensures sources { O.sources outbound.new ≡ O.sources outbound.old }
    ensures addresses { GiveAfter beat.now.pauses (O.addresses outbound.old) (O.addresses outbound.new) }
{
    for post in posts {
        match outbound.send(now, beat, post) {
            Ok(()) => {}
            Err(fault) => return Err(fault),
        }
    }
    Ok(())
}
