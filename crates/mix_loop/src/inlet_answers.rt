//! An inlet is asked, and its answer is written down or handed out.
ghost use Rattle.std.specs.Prelude.{◌≡◌, not, true, false};
ghost use Rattle.stream_spec.specs.Ready.{chunk_of};
ghost use Rattle.mix_loop.specs.Answers.{GivesAnswer, is_later, said_in};
ghost use Rattle.mix_loop.specs.Items.{goes_on};

use crate::answers::Answer;
use crate::inlets::Inlet;
use crate::items::Item;
use rtt_base::{Chunk, NoMemory, Text};
use std::alloc::Global;
use std::sync::Wait;
use workers::Reusable;

impl<F> Reusable for Answer<F> {
    fn blank(alloc: Global) -> Result<Answer<F>, NoMemory> {
        let Ok(chunk) = Box::new(alloc, Chunk::default()) else {
            return Err(NoMemory);
        };
        Ok(Answer {
            item: Item::Later,
            chunk,
        })
    }
}

/// Asks an inlet, and writes down what it answers. Whether it answered something.
pub fn ask<I: Inlet, R: Wait>(inlet: &mut I, rt: &R, answer: &mut Answer<I::Fault>) -> bool
    requires { I.good inlet.old }
    ensures good { goes_on answer.new.item ≡ true → I.good inlet.new }
    ensures gives { GivesAnswer I.stands inlet.old inlet.new answer.new }
    ensures is { result ≡ not (is_later answer.new.item) }
    ensures nearer { result ≡ false → I.nearer inlet.old inlet.new }
{
    answer.item = inlet.next(rt, &mut answer.chunk);
    !matches!(answer.item, Item::Later)
}

/// Puts a text in place of another.
fn copy_text(from: &Text, to: &mut Text)
    ensures { to.new ≡ from.now }
{
    to.clear();
    let _room = to.append(from.as_slice());
}

/// Puts a chunk in place of another.
pub fn copy_chunk(from: &Chunk, to: &mut Chunk)
    ensures { chunk_of to.new ≡ chunk_of from.now }
{
    to.source = from.source;
    to.ready = from.ready;
    copy_text(&from.text, &mut to.text);
}

/// Hands an answer out, and what lies beside it in place of what is in `chunk`.
pub(crate) fn hand_out<F: Copy>(answer: &Answer<F>, chunk: &mut Chunk) -> Item<F>
    ensures is { result ≡ answer.now.item }
    ensures text { chunk_of chunk.new ≡ said_in answer.now }
{
    copy_chunk(&answer.chunk, chunk);
    answer.item
}
