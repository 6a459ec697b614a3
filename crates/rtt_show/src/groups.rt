//! The packets of streams, or of pairs, kept apart by what they name.
ghost use Rattle.std.specs.Prelude.{◌≡◌, ◌==◌, ◌+◌, ◌<◌, ◌≤◌, ◌^◌, [], length, OnOk, IfOk, position};
ghost use Rattle.rtt_show.specs.Groups.{AddedAt, Begins, GroupsMore, one_group};

use rtpdump_io::write_record;
use rtt_base::limits::MOST_SOURCES;
use rtt_base::{Bytes, NoMemory};
use std::alloc::Global;

/// The packets that name the same, as records one behind the other.
#[derive(Drop)]
pub struct Group {
    pub name: u64,
    pub records: Bytes,
}

/// The packets of the first 64 names, and how many packets have other names.
#[derive(Drop)]
pub struct Groups {
    pub groups: Vec<Group>,
    pub others: u64,
}

/// The place of the group of this name.
fn place_of(groups: &[Group], name: u64) -> Option<usize>
    ensures { result ≡ position (λ group. group.name == name) groups.now }
{
    groups.iter().position(|group| group.name == name)
}

/// A group with its first packet.
fn new_group(alloc: Global, name: u64, at: u32, packet: &[u8]) -> Result<Group, NoMemory>
    requires some { 0 < length packet.now }
    requires fits { length packet.now ≤ 65527 }
    ensures { IfOk result (λ group. group ≡ one_group name (at, packet.now)) }
{
    let mut records = Bytes::new(alloc);
    write_record(at, packet, &mut records)?;
    Ok(Group { name, records })
}

impl Groups {
    pub(crate) fn new(alloc: Global) -> Groups
        ensures none { result.groups.items ≡ [] }
        ensures others { result.others ≡ 0 }
    {
        Groups {
            groups: Vec::new(alloc),
            others: 0,
        }
    }

    /// Adds a packet to the group at this place.
    fn add(&mut self, place: usize, at: u32, packet: &[u8]) -> Result<(), NoMemory>
        requires there { place < length self.old.groups.items }
        requires some { 0 < length packet.now }
        requires fits { length packet.now ≤ 65527 }
        ensures added { OnOk result (AddedAt place (at, packet.now) self.old.groups.items self.new.groups.items) }
        ensures others { self.new.others ≡ self.old.others }
    {
        let group = &mut self.groups[place];
        write_record(at, packet, &mut group.records)
    }

    /// Adds a group with its first packet.
    fn begin(&mut self, alloc: Global, name: u64, at: u32, packet: &[u8]) -> Result<(), NoMemory>
        requires some { 0 < length packet.now }
        requires fits { length packet.now ≤ 65527 }
        ensures begun { OnOk result (Begins name (at, packet.now) self.old.groups.items self.new.groups.items) }
        ensures others { self.new.others ≡ self.old.others }
    {
        let group = new_group(alloc, name, at, packet)?;
        self.groups.push(group)?;
        Ok(())
    }

    /// A packet of 1 to 65527 octets names this.
    pub(crate) fn take(
        &mut self,
        alloc: Global,
        name: u64,
        at: u32,
        packet: &[u8],
    ) -> Result<(), NoMemory>
        requires few { self.old.others < 2 ^ 32 }
        requires some { 0 < length packet.now }
        requires fits { length packet.now ≤ 65527 }
        ensures more { OnOk result (GroupsMore self.old name (at, packet.now) self.new) }
        ensures others { self.new.others ≤ self.old.others + 1 }
    {
        if let Some(place) = place_of(self.groups.as_slice(), name) {
            return self.add(place, at, packet);
        }
        if self.groups.len() < MOST_SOURCES {
            return self.begin(alloc, name, at, packet);
        }
        self.others += 1;
        Ok(())
    }
}
