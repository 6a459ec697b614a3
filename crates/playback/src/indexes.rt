//! Where the records of a recording stand.
ghost use Rattle.std.specs.Prelude.{◌≡◌, ◌<◌, ◌^◌, length, IfOk};
ghost use Rattle.playback.specs.Written.{HasRecords};
ghost use Rattle.playback.specs.Finds.{FindsAll, LieWithin};

use rtpdump_io::next_record;
use rtt_base::NoMemory;
use std::alloc::Global;

/// The moment of each record, in milliseconds, and the octet at which it begins.
#[derive(Drop)]
pub(crate) struct RecordIndex {
    pub moments: Vec<u32>,
    pub places: Vec<usize>,
}

/// Finds each of these records.
pub(crate) fn find_records(alloc: Global, records: &[u8]) -> Result<RecordIndex, NoMemory>
    requires { HasRecords records.now }
    ensures finds { IfOk result (λ found. FindsAll found records.now) }
    ensures few { IfOk result (λ found. length found.moments.items < 2 ^ 32) }
    ensures each { IfOk result (λ found. length found.places.items ≡ length found.moments.items) }
    ensures within { IfOk result (λ found. LieWithin found records.now) }
{
    let mut moments = Vec::new(alloc);
    let mut places = Vec::new(alloc);
    let mut rest = records;
    while let Some((moment, _, more)) = next_record(rest) {
        moments.push(moment)?;
        places.push(records.len() - rest.len())?;
        rest = more;
    }
    Ok(RecordIndex { moments, places })
}
