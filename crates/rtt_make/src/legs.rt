//! The legs of the conference.
ghost use Rattle.std.specs.Prelude.{◌≡◌, ◌≤◌, ◌<◌, ◌++◌, codes, decimal, map, IfOk};
ghost use Rattle.std.specs.List.{range_with_len};
ghost use Rattle.command_spec.specs.Generated.{leg};

use file_spec::limits::{USUAL_GENERATIONS, USUAL_RED, USUAL_T140};
use file_spec::{LegLine, Legs, Stay, name_of};
use rtt_base::{Name, NoMemory, Path, PayloadTypes};
use std::alloc::Global;

/// The SSRC of the first leg: each later one has the next.
const FIRST_SSRC: u32 = 1000;

/// `L` and the number of the leg.
fn leg_name(alloc: Global, number: u32) -> Result<Name, NoMemory>
    requires { number < 100 }
    ensures { IfOk result (λ name. name ≡ codes "L" ++ decimal number) }
{
    match format!(in alloc; "L{number}") {
        Ok(text) => Ok(name_of(text.as_str())),
        Err(_) => Err(NoMemory),
    }
}

/// The number of the leg and `.in`.
fn input_path(alloc: Global, number: u32) -> Result<Path, NoMemory>
    ensures { IfOk result (λ path. path ≡ decimal number ++ codes ".in") }
{
    match format!(in alloc; "{number}.in") {
        Ok(text) => Path::from_text(alloc, text.as_str()),
        Err(_) => Err(NoMemory),
    }
}

/// The number of the leg and `.out`.
fn output_path(alloc: Global, number: u32) -> Result<Path, NoMemory>
    ensures { IfOk result (λ path. path ≡ decimal number ++ codes ".out") }
{
    match format!(in alloc; "{number}.out") {
        Ok(text) => Path::from_text(alloc, text.as_str()),
        Err(_) => Err(NoMemory),
    }
}

/// The SSRC of the leg of this number.
pub(crate) fn leg_ssrc(number: u32) -> u32
    requires { number < 100 }
    ensures { result ≡ (leg number).ssrc }
{
    FIRST_SSRC + number
}

/// The leg of this number.
fn leg_of(alloc: Global, number: u32) -> Result<LegLine, NoMemory>
    requires { number < 100 }
    ensures { IfOk result (λ line. line ≡ leg number) }
{
    let name = leg_name(alloc, number)?;
    let input = input_path(alloc, number)?;
    let output = output_path(alloc, number)?;
    Ok(LegLine {
        line: 0,
        name,
        aware: number % 4 != 3,
        ssrc: leg_ssrc(number),
        input,
        output,
        payload_types: PayloadTypes {
            t140: USUAL_T140,
            red: USUAL_RED,
        },
        generations: USUAL_GENERATIONS,
        stay: Stay {
            from: 0,
            until: None,
        },
        follow: false,
        long: false,
    })
}

/// So many legs.
pub(crate) fn legs_of(alloc: Global, count: u32) -> Result<Legs, NoMemory>
    requires { count ≤ 100 }
    ensures { IfOk result (λ legs. legs ≡ map leg (range_with_len 0 count)) }
{
    let mut legs = Legs::new(alloc);
    for number in 0..count {
        let line = leg_of(alloc, number)?;
        legs.push(line)?;
    }
    Ok(legs)
}
