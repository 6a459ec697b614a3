//! The law that chunks are given packet by packet.
ghost use Rattle.stream_spec.specs.HeardLaws.{ChunksAreByUsed, ChunksByAreHeard, NextAddsChunks};

/// The chunks of a source are told by the used packets, and packet by packet: each adds its own, at the moment at which
/// it is ready, to those of packets of lower numbers.
pub fn chunks_one_by_one()
    ensures all { ChunksAreByUsed }
    ensures next { NextAddsChunks }
    ensures texts { ChunksByAreHeard }
{}
