//! The line that is printed of a conference.
ghost use Rattle.std.specs.Prelude.{◌≡◌, ◌++◌, decimal, IfOk, OnOk};
ghost use Rattle.command_spec.specs.Making.{summary};
ghost use Rattle.rtt_make.specs.Mades.{made_of, IsGenerated};

use crate::Made;
use crate::counts::{lines_in, octets_in};
use itoa::Buffer;
use rtt_base::{Bytes, NoMemory};
use std::alloc::Global;

/// How many packets came to the terminals, how many of them were used, and how many markers are heard there.
#[derive(Clone, Copy, Debug, PartialEq, Eq)]
pub struct Totals {
    pub packets: u64,
    pub used: u64,
    pub markers: u64,
}

/// Appends a number and what stands before it.
fn append_number(line: &mut Bytes, before: &[u8], number: u64) -> Result<(), NoMemory>
    ensures { OnOk result (line.new ≡ line.old ++ before.now ++ decimal number) }
{
    let mut digits = Buffer::new();
    line.append(before)?;
    line.append(digits.format(number).as_bytes())
}

/// The line that is printed of the conference of this number, where that was heard of it.
#[tactic(auto, unfolding(command_spec::specs::Making::summary))]
pub fn summary_of(alloc: Global, number: u32, made: &Made, heard: Totals) -> Result<Bytes, NoMemory>
    requires { IsGenerated made.now }
    ensures { IfOk result (λ line. line
        ≡ summary number (made_of made.now)
        (record { packets = heard.packets; used = heard.used; markers = heard.markers })) }
{
    let legs = made.conference.legs.len() as u64;
    let lines = lines_in(made.scripts.as_slice());
    let typed = octets_in(made.scripts.as_slice());
    let mut line = Bytes::new(alloc);
    append_number(&mut line, b"make ", u64::from(number))?;
    append_number(&mut line, b" legs ", legs)?;
    append_number(&mut line, b" lines ", lines)?;
    append_number(&mut line, b" typed ", typed)?;
    append_number(&mut line, b" packets ", heard.packets)?;
    append_number(&mut line, b" used ", heard.used)?;
    append_number(&mut line, b" marks ", heard.markers)?;
    line.append(b"\n")?;
    Ok(line)
}
