//! How much is typed.
ghost use Rattle.std.specs.Prelude.{◌≡◌, ◌<◌, ◌^◌, length};
ghost use Rattle.std.specs.List.{sum_by};
ghost use Rattle.command_spec.specs.Scripts.{text_of_lines};

use script_text::Script;

/// The number of lines of all scripts.
pub(crate) fn lines_in(scripts: &[Script]) -> u64
    requires { sum_by length scripts.now < 2 ^ 64 }
    ensures { result ≡ sum_by length scripts.now }
{
    let mut lines = 0;
    for script in scripts {
        lines += script.len() as u64;
    }
    lines
}

/// The number of octets of the texts of a script.
fn octets_of(script: &Script) -> u64
    requires { length (text_of_lines script.now) < 2 ^ 64 }
    ensures { result ≡ length (text_of_lines script.now) }
{
    let mut octets = 0;
    for index in 0..script.len() {
        let line = script.line(index);
        octets += line.text.len() as u64;
    }
    octets
}

/// The number of octets of the texts of all scripts.
pub(crate) fn octets_in(scripts: &[Script]) -> u64
    requires { sum_by (λ s. length (text_of_lines s)) scripts.now < 2 ^ 64 }
    ensures { result ≡ sum_by (λ s. length (text_of_lines s)) scripts.now }
{
    let mut octets = 0;
    for script in scripts {
        octets += octets_of(script);
    }
    octets
}
