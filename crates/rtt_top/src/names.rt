//! Which file is told of, where there are one input and one output.
ghost use Rattle.std.specs.Prelude.{◌≡◌, Err};
ghost use Rattle.rtt_top.specs.Faults.{name_in};

use command_spec::Fault;

/// The name of the file of a fault, where there are one input and one output.
fn file_name<'a>(fault: Fault, input: &'a str, output: &'a str) -> &'a str
    ensures { result.now ≡ name_in input.now output.now (Err fault) }
{
    match fault {
        Fault::CannotWrite { .. } => output,
        _ => input,
    }
}

/// The name of the file that is told of where a command ends so that has one input and one output.
pub fn ending_name<'a>(ending: Result<(), Fault>, input: &'a str, output: &'a str) -> &'a str
    ensures { result.now ≡ name_in input.now output.now ending }
{
    match ending {
        Ok(()) => input,
        Err(fault) => file_name(fault, input, output),
    }
}
