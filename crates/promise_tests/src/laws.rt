//! What is concluded.
ghost use Rattle.promise_tests.specs.Mixed.{MixTellsWhatWasTyped};
ghost use Rattle.promise_tests.specs.Live.{LiveCallsTellWhatWasTyped};
ghost use Rattle.promise_tests.specs.Cascade.{CascadesTellWhatWasTyped};
ghost use Rattle.promise_tests.specs.Shut.{LoopholesStayShut};

use live_spec::one_sender_is_heard;
use mixer_spec::piece_laws::{
    hops_have_pieces, texts_are_characters, texts_are_cut, told_in_pieces,
};
use rtt_io::{Sink, World};
use rtt_top::laws::statuses_are_those_of_the_command;
use stream_spec::still_keeps;

/// Where `mix` ends with 0, what Bob hears as Ann's are texts that Ann typed, in her order, each at most once, and markers,
/// whatever was lost. Where all stay and each packet of both hops was used, it is exactly Ann's text. What is printed is that,
/// shown.
pub fn mix_tells_what_was_typed<W: World, K: Sink, E: Sink>()
    ensures { MixTellsWhatWasTyped W.tells K.tells E.tells }
{
    texts_are_cut();
    told_in_pieces();
}

/// So it is in a live call, whatever then comes to Bob's terminal of what it is given. Where nothing was lost, Ann's text is what
/// Bob hears and what was not yet given to him; where the call ended as closed, it is what Bob hears.
pub fn live_calls_tell_what_was_typed()
    ensures { LiveCallsTellWhatWasTyped }
{
    hops_have_pieces();
    texts_are_cut();
    told_in_pieces();
    still_keeps();
    one_sender_is_heard();
}

/// So it is of `cascade` where Ann stands behind another mixer, from that mixer's sender to Bob, character by character; where
/// packets have no limit, of whole blocks.
pub fn cascades_tell_what_was_typed()
    ensures { CascadesTellWhatWasTyped }
{
    texts_are_characters();
    told_in_pieces();
}

/// What no run may be: `make` that ends with 5 or 6, `read` that ends with 9, `make` that ends with 0 and printed something else
/// than its line, and `mix` that ends with 9 though a source failed.
pub fn loopholes_stay_shut<W: World, K: Sink, E: Sink>()
    ensures { LoopholesStayShut W.tells K.tells E.tells }
{
    statuses_are_those_of_the_command::<W, K, E>();
}
