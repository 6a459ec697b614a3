//! Reads scripts.
ghost use Rattle.std.specs.Prelude.{◌≡◌, true, Ok, IfOk, IfErr, OnOk};
ghost use Rattle.file_spec.specs.Script.{script, typed};
ghost use Rattle.script_text.specs.Causes.{IsCause, IsCauseAt};
ghost use Rattle.script_text.specs.declared.faults.ConfFault.TheVariants.{Refused};
ghost use Rattle.script_text.specs.ScriptLines.{with_typed, IsPlain};

use crate::escapes::read_text;
use crate::heads::{Head, read_head};
use crate::line_facts::{is_plain_text, known_of};
use crate::{ConfFault, ConfKind, Script, ScriptLine, next_line, says_nothing};
use file_spec::limits::{LONGEST_TEXT, MOST_SCRIPT_OCTETS};
use rtt_base::Bytes;
use std::alloc::Global;

fn refused(line: u32, kind: ConfKind) -> ConfFault
    ensures { result ≡ Refused line kind }
{
    ConfFault::Refused { line, kind }
}

/// Appends a line whose text is read from octets without a backslash.
fn push_plain(script: &mut Script, line: u32, head: Head<'_>) -> Result<(), ConfFault>
    requires { IsPlain head.octets.now }
    ensures ok { OnOk result (with_typed script.old line head.entry ≡ Ok script.new) }
    ensures err { IfErr result (λ fault. IsCauseAt line fault (typed head.entry.octets.now)) }
{
    if head.octets.len() > LONGEST_TEXT {
        return Err(refused(line, ConfKind::Long));
    }
    let said = ScriptLine {
        line,
        at: head.at,
        text: head.octets,
    };
    script.push(said)?;
    Ok(())
}

/// The same of octets that may have escapes. Their text is written over `text`.
#[inline(never)]
fn push_escaped(
    script: &mut Script,
    line: u32,
    head: Head<'_>,
    text: &mut Bytes,
) -> Result<(), ConfFault>
    ensures ok { OnOk result (with_typed script.old line head.entry ≡ Ok script.new) }
    ensures err { IfErr result (λ fault. IsCauseAt line fault (typed head.entry.octets.now)) }
{
    match read_text(line, head.octets, text) {
        Ok(()) => {}
        Err(fault) => return Err(fault),
    }
    let said = ScriptLine {
        line,
        at: head.at,
        text: text.as_slice(),
    };
    script.push(said)?;
    Ok(())
}

/// The same, where `plain` says that it is known that they have none.
fn push_typed(
    script: &mut Script,
    line: u32,
    head: Head<'_>,
    plain: bool,
    text: &mut Bytes,
) -> Result<(), ConfFault>
    requires { plain ≡ true → IsPlain head.octets.now }
    ensures ok { OnOk result (with_typed script.old line head.entry ≡ Ok script.new) }
    ensures err { IfErr result (λ fault. IsCauseAt line fault (typed head.entry.octets.now)) }
{
    if is_plain_text(head.octets, plain) {
        push_plain(script, line, head)
    } else {
        push_escaped(script, line, head, text)
    }
}

/// Reads a script, a line for each text and when it is typed.
pub fn read_script(alloc: Global, bytes: &[u8]) -> Result<Script, ConfFault>
    ensures value { IfOk result (λ lines. script bytes.now ≡ Ok lines) }
    ensures refused { IfErr result (λ fault. IsCause fault (script bytes.now)) }
{
    if bytes.len() > MOST_SCRIPT_OCTETS {
        return Err(refused(0, ConfKind::Large));
    }
    let known = known_of(bytes);
    let mut script = Script::new(alloc);
    let mut text = Bytes::new(alloc);
    let mut latest = 0;
    let mut number = 0;
    let mut rest = bytes;
    while let Some((line, after)) = next_line(rest) {
        rest = after;
        number += 1;
        if says_nothing(line) {
            continue;
        }
        let head = match read_head(latest, line, known) {
            Ok(head) => head,
            Err(kind) => return Err(refused(number, kind)),
        };
        latest = head.at;
        match push_typed(&mut script, number, head, known.plain, &mut text) {
            Ok(()) => {}
            Err(fault) => return Err(fault),
        }
    }
    Ok(script)
}
