//! The board of a live call, as its tap.
ghost use Rattle.std.specs.Prelude.{◌≡◌, false, []};
ghost use Rattle.live_board.specs.Values.{BoardId};

use crate::Tap;
use live_board::{AddFault, BoardWriter};
use rtt_base::{Chunk, NoMemory};
use std::marker::{Brand, PhantomData};
use std::sync::Wait;

/// Which board is written.
pub(crate) trait OnBoard {
    ghost board: { BoardId };
}

impl OnBoard for Brand {
    ghost board = { record { history = record { number = 0; log_name = 0; cells_name = 0 }; legs = 0 } };
}

/// The writer of a board, which publishes at each turn what the mixer took. It keeps the handle to wait by, since a publish may
/// wait for the reader to leave.
pub(crate) struct BoardTap<B, R> {
    pub(crate) writer: BoardWriter,
    pub(crate) rt: R,
    pub(crate) of: PhantomData<B>,
    ghost open: { writer.ended ≡ false },
}

impl<B: OnBoard, R: Wait> Tap for BoardTap<B, R> {
    ghost use Rattle.rtt_live.specs.Watched.{IsWrittenFor};

    ghost stands = { λ t past. IsWrittenFor B.board t.writer past };

    fn took(&mut self, chunk: &Chunk) -> Result<(), NoMemory> {
        // Octets that can't be counted end the call as want of memory does: no call lasts for so many.
        self.writer.add(chunk).map_err(|_: AddFault| NoMemory)
    }

    fn turned(&mut self) {
        self.writer.publish(&self.rt);
    }
}
