//! Why the system does not give a port.
ghost use Rattle.std.specs.Prelude.{◌≡◌};
ghost use Rattle.rtt_check.specs.Causes.{cause_at};

use report_spec::PortFault;
use std::io;

/// Why a call that opens a port failed, by the number of the system's error.
fn cause_at(number: u32) -> PortFault
    ensures { result ≡ cause_at number }
{
    match number {
        1 | 13 => PortFault::NoRight,
        23 | 24 => PortFault::ManyFiles,
        97 | 99 => PortFault::NoAddress,
        98 => PortFault::Taken,
        _ => PortFault::Other,
    }
}

/// The same by the error.
pub(crate) fn cause_of(error: &io::Error) -> PortFault {
    match error.raw_os_error() {
        Some(number) => match u32::try_from(number) {
            Ok(number) => cause_at(number),
            Err(_) => PortFault::Other,
        },
        None => PortFault::Other,
    }
}
