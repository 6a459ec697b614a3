//! Reading of a whole source.
ghost use Rattle.std.specs.Prelude.{◌≡◌, ◌≢◌, ◌<◌, ◌≤◌, ◌+◌, ◌^◌, [], ◌++◌, length, take, OnErr, IfOk, Err};
ghost use Rattle.rtt_io.specs.Counts.{Rose};

use crate::Source;
use rtt_base::{Bytes, NoMemory};
use std::alloc::Global;
use thiserror::Error;

/// Why a source was not read to its end.
#[derive(Clone, Copy, Debug, PartialEq, Eq, Error)]
pub enum ReadFault {
    /// It failed.
    #[error("a read failed")]
    Failed,
    #[error("out of memory")]
    NoMemory,
}

/// Reads a source to its end, or until it has given more than `most` octets: it reads in blocks of 4096, so at most
/// one block more.
pub fn read_whole<S: Source>(alloc: Global, source: &mut S, most: usize) -> Result<Bytes, ReadFault>
    ensures given { S.tells → IfOk result (λ octets. S.left source.old ≡ octets ++ S.left source.new) }
    ensures ended { S.tells → IfOk result (λ octets. length octets ≤ most → S.left source.new ≡ []) }
    ensures bounded { IfOk result (λ octets. length octets ≤ most + 4096) }
    ensures failed { result ≡ Err ReadFault.Failed → Rose (S.faults source.old) (S.faults source.new) }
    ensures calm { result ≢ Err ReadFault.Failed → S.faults source.new ≡ S.faults source.old }
    ensures never_falls { S.faults source.old ≤ S.faults source.new }
    ensures same_name { S.name source.new ≡ S.name source.old }
{
    let mut octets = Bytes::new(alloc);
    let mut block = [0; 4096];
    while octets.len() <= most {
        let Ok(number) = source.read(&mut block) else {
            return Err(ReadFault::Failed);
        };
        if number == 0 {
            return Ok(octets);
        }
        if let Err(NoMemory) = octets.append(&block[..number]) {
            return Err(ReadFault::NoMemory);
        }
    }
    Ok(octets)
}
