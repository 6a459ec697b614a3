//! Octets that several hold.
ghost use Rattle.std.specs.Prelude.{◌≡◌, [], ◌∷◌, ◌++◌, IfOk, OnOk};
ghost use Rattle.std.specs.List.{concat};

use rtt_base::{Bytes, NoMemory};
use std::alloc::Global;
use std::marker::Model;
use std::sync::Arc;

/// A piece of what is printed, which stands in memory once, however many hold it.
#[derive(Drop)]
pub struct Piece {
    octets: Arc<Bytes, Global>,
}

impl Model for Piece {
    ghost use Rattle.std.specs.Prelude.{ℕ, List};
    ghost use Rattle.std.specs.Arc.{arc_value};

    ghost Value = { List ℕ };

    ghost view = { λ p. arc_value p.octets };
}

impl Piece {
    /// A piece of these octets.
    pub fn new(alloc: Global, octets: Bytes) -> Result<Piece, NoMemory>
        ensures { IfOk result (λ piece. piece ≡ octets) }
    {
        match Arc::new(alloc, octets) {
            Ok(octets) => Ok(Piece { octets }),
            Err(_) => Err(NoMemory),
        }
    }

    /// The same piece, for one more to hold.
    pub fn again(&self) -> Result<Piece, NoMemory>
        ensures { IfOk result (λ piece. piece ≡ self.now) }
    {
        match Arc::try_clone(&self.octets) {
            Ok(octets) => Ok(Piece { octets }),
            Err(_) => Err(NoMemory),
        }
    }

    pub fn as_slice(&self) -> &[u8]
        ensures { result.now ≡ self.now }
    {
        self.octets.as_slice()
    }
}

/// Puts a piece of these octets behind the others.
pub(crate) fn add_octets(
    alloc: Global,
    octets: Bytes,
    pieces: &mut Vec<Piece>,
) -> Result<(), NoMemory>
    ensures { OnOk result (concat pieces.new.items ≡ concat pieces.old.items ++ octets) }
{
    let piece = Piece::new(alloc, octets)?;
    pieces.push(piece)?;
    Ok(())
}

/// Puts this piece behind the others too.
pub(crate) fn add_again(piece: &Piece, pieces: &mut Vec<Piece>) -> Result<(), NoMemory>
    ensures { OnOk result (concat pieces.new.items ≡ concat pieces.old.items ++ piece.now) }
{
    let again = piece.again()?;
    pieces.push(again)?;
    Ok(())
}

/// Puts these pieces behind others.
pub(crate) fn add_pieces(pieces: Vec<Piece>, all: &mut Vec<Piece>) -> Result<(), NoMemory>
    ensures { OnOk result (all.new.items ≡ all.old.items ++ pieces.items) }
{
    for piece in pieces {
        all.push(piece)?;
    }
    Ok(())
}
