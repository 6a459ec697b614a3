//! The names under which faults are told.
ghost use Rattle.std.specs.Prelude.{◌≡◌, ◌≤◌, length};
ghost use Rattle.command_spec.specs.Listing.{fault_name};
ghost use Rattle.command_spec.specs.Messages.{dump_kind_name};

use wire_spec::{DumpKind, TextFault};

/// The name of the refusal of a packet: at most 9 octets.
pub fn fault_name(fault: TextFault) -> &'static [u8]
    ensures name { result.now ≡ fault_name fault }
    ensures short { length result.now ≤ 9 }
{
    match fault {
        TextFault::Short => b"Short",
        TextFault::Version => b"Version",
        TextFault::Padding => b"Padding",
        TextFault::Sources => b"Sources",
        TextFault::WrongType => b"WrongType",
        TextFault::Cut => b"Cut",
        TextFault::Many => b"Many",
        TextFault::Long => b"Long",
        TextFault::NotText => b"NotText",
        TextFault::Foreign => b"Foreign",
    }
}

/// The name of a fault of a recording.
pub fn dump_kind_name(kind: DumpKind) -> &'static [u8]
    ensures { result.now ≡ dump_kind_name kind }
{
    match kind {
        DumpKind::NotDump => b"NotDump",
        DumpKind::BadLength => b"BadLength",
        DumpKind::EndsInside => b"EndsInside",
        DumpKind::TooLong => b"TooLong",
        DumpKind::TooLarge => b"TooLarge",
        DumpKind::Read => b"Read",
    }
}
