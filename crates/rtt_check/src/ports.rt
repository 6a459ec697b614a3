//! What is told of the ports of a conference of links.
ghost use Rattle.std.specs.Prelude.{◌≡◌, ◌++◌, None, option_map, OnOk, IfOk};
ghost use Rattle.report_spec.specs.Checking as checking;
ghost use Rattle.report_spec.specs.Ports as told;
ghost use Rattle.report_spec.specs.Looks.{links_as, links_in, links_read};
ghost use Rattle.file_spec.specs.Conferences.{meaning_of};
ghost use Rattle.file_spec.specs.Conference.{conference_from};
ghost use Rattle.file_spec.specs.declared.conference_lines.Form.TheVariants as of;
ghost use Rattle.rtt_check.specs.Reports.{as_told, told_of};

use crate::Ports;
use crate::forms::{foreign, form_of};
use crate::inputs::fault_ended;
use crate::lines::line_at;
use crate::name_texts::append_told;
use crate::reports::{Report, begin};
use crate::sentences::port_sentence;
use conf_text::{ConfFault, read_conf};
use file_spec::{Conference, Form, LegLine, OperatorLine};
use itoa::Buffer;
use report_spec::limits::MOST_CHECKED_OCTETS;
use report_spec::{FileForm, PortFault};
use rtt_base::{Bytes, NoMemory};
use script_text::number_from;
use std::alloc::Global;

/// The peer of a link at the port of an operator, who is anywhere on this machine.
const ANY_PEER: &str = "127.0.0.1:1";

/// Why a port can't be had.
fn port_cause(fault: PortFault) -> &'static [u8]
    ensures { result.now ≡ told.port_cause fault }
{
    match fault {
        PortFault::Taken => b"taken",
        PortFault::NoRight => b"no right",
        PortFault::NoAddress => b"no address of this machine",
        PortFault::ManyFiles => b"too many open files",
        PortFault::Other => b"not given",
    }
}

/// A port that can't be had, behind what names it.
fn port_refused(mut text: Bytes, fault: PortFault, line: Option<&[u8]>) -> Result<Report, NoMemory>
    ensures { IfOk result (λ report. as_told report ≡ told.refused_behind text fault (option_map (λ l. l.now) line.entry)) }
{
    text.append(b": ")?;
    text.append(port_cause(fault))?;
    fault_ended(text, line, port_sentence(fault))
}

/// Appends what of a leg can't be had.
fn append_had(text: &mut Bytes, fault: PortFault, leg: &LegLine) -> Result<(), NoMemory>
    ensures { OnOk result (text.new ≡ text.old ++ told.had_by fault leg.now) }
{
    match fault {
        PortFault::NoAddress => append_told(text, leg.output.as_str()),
        PortFault::Taken | PortFault::NoRight | PortFault::ManyFiles | PortFault::Other => {
            text.append(b"port ")?;
            append_told(text, leg.input.as_str())
        }
    }
}

/// A leg of the conference with the octets `file_spec` whose port can't be had.
fn link_told(
    alloc: Global,
    conference: &[u8],
    leg: &LegLine,
    fault: PortFault,
) -> Result<Report, NoMemory>
    ensures { IfOk result (λ report. as_told report ≡ told.link_told conference.now leg.now fault) }
{
    let mut text = begin(alloc, FileForm::Links)?;
    append_had(&mut text, fault, leg)?;
    port_refused(text, fault, line_at(conference, leg.line))
}

/// An operator whose port can't be had.
fn operator_refused(
    alloc: Global,
    operator: &OperatorLine,
    fault: PortFault,
) -> Result<Report, NoMemory>
    ensures { IfOk result (λ report. as_told report ≡ told.operator_refused operator.now fault) }
{
    let mut digits = Buffer::new();
    let mut text = begin(alloc, FileForm::Links)?;
    text.append(b"port ")?;
    text.append(digits.format(operator.port).as_bytes())?;
    text.append(b" of the operator")?;
    port_refused(text, fault, None)
}

/// Why the port of a leg can't be had, where it can't.
fn answer_to<P: Ports>(leg: &LegLine, ports: &mut P) -> Result<Option<PortFault>, NoMemory>
    ensures answered { P.tells → IfOk result (λ found. found ≡ told.answer_to (P.answers ports.old) leg.now) }
    ensures same { P.tells → P.answers ports.new ≡ P.answers ports.old }
{
    match number_from(leg.input.as_str(), 1, 65_535) {
        Some(port) => ports.try_port(port as u16, leg.output.as_str()),
        None => Ok(None),
    }
}

/// Why the port of an operator can't be had, where it can't.
fn answer_for<P: Ports>(
    operator: &OperatorLine,
    ports: &mut P,
) -> Result<Option<PortFault>, NoMemory>
    ensures answered { P.tells → IfOk result (λ found. found ≡ P.answers ports.old operator.now.port told.any_peer) }
    ensures same { P.tells → P.answers ports.new ≡ P.answers ports.old }
{
    ports.try_port(operator.port, ANY_PEER)
}

/// What is told of the port of an operator, of which this was answered.
fn operator_found(
    alloc: Global,
    operator: &OperatorLine,
    found: Option<PortFault>,
) -> Result<Option<Report>, NoMemory>
    ensures { IfOk result (λ report. (whole : checking.Report)
        → told_of report whole ≡ told.unless_refused found (told.operator_refused operator.now) whole) }
{
    let Some(fault) = found else {
        return Ok(None);
    };
    match operator_refused(alloc, operator, fault) {
        Ok(report) => Ok(Some(report)),
        Err(NoMemory) => Err(NoMemory),
    }
}

/// What is told of the port of an operator, where there is one.
#[tactic(auto, using(crate::proofs::Asking::asked))]
fn operator_told<P: Ports>(
    alloc: Global,
    operator: &Option<OperatorLine>,
    ports: &mut P,
) -> Result<Option<Report>, NoMemory>
    ensures told { P.tells → IfOk result (λ found. (whole : checking.Report)
        → told_of found whole ≡ told.operator_told (P.answers ports.old) operator.now whole) }
    ensures same { P.tells → P.answers ports.new ≡ P.answers ports.old }
{
    let Some(operator) = operator else {
        return Ok(None);
    };
    match answer_for(operator, ports) {
        Ok(found) => operator_found(alloc, operator, found),
        Err(NoMemory) => Err(NoMemory),
    }
}

/// What is told of the ports of these legs, and of the operator's behind them.
fn links_told<P: Ports>(
    alloc: Global,
    conference: &[u8],
    legs: &[LegLine],
    operator: &Option<OperatorLine>,
    ports: &mut P,
) -> Result<Option<Report>, NoMemory>
    ensures told { P.tells → IfOk result (λ found. (whole : checking.Report)
        → told_of found whole ≡ told.links_told (P.answers ports.old) conference.now legs.now (told.operator_told (P.answers ports.old) operator.now whole)) }
    ensures same { P.tells → P.answers ports.new ≡ P.answers ports.old }
{
    let [leg, more @ ..] = legs else {
        return operator_told(alloc, operator, ports);
    };
    let found = match answer_to(leg, ports) {
        Ok(found) => found,
        Err(NoMemory) => return Err(NoMemory),
    };
    match found {
        Some(fault) => match link_told(alloc, conference, leg, fault) {
            Ok(report) => Ok(Some(report)),
            Err(NoMemory) => Err(NoMemory),
        },
        None => links_told(alloc, conference, more, operator, ports),
    }
}

/// What is told of the ports of a conference of links that has these octets: nothing where all of them can be had. None is kept then.
pub fn ports_told<P: Ports>(
    alloc: Global,
    octets: &[u8],
    conference: &Conference,
    ports: &mut P,
) -> Result<Option<Report>, NoMemory>
    ensures told { P.tells → IfOk result (λ found. (whole : checking.Report)
        → told_of found whole ≡ told.ports_told (P.answers ports.old) octets.now (meaning_of conference.now) whole) }
    ensures same { P.tells → P.answers ports.new ≡ P.answers ports.old }
    ensures none_kept { P.kept ports.new ≡ 0 }
{
    let operator = &conference.service.operator;
    let found = links_told(alloc, octets, conference.legs.as_slice(), operator, ports);
    ports.let_go();
    found
}

fn links_read(alloc: Global, octets: &[u8]) -> Result<Option<Conference>, NoMemory>
    ensures { IfOk result (λ found. option_map meaning_of found ≡ links_read (conference_from of.Links octets.now)) }
{
    match read_conf(alloc, octets, Form::Links) {
        Ok(conference) => Ok(Some(conference)),
        Err(ConfFault::Refused { .. }) => Ok(None),
        Err(ConfFault::NoMemory) => Err(NoMemory),
    }
}

fn links_as(alloc: Global, form: FileForm, octets: &[u8]) -> Result<Option<Conference>, NoMemory>
    ensures { IfOk result (λ found. option_map meaning_of found ≡ links_as form octets.now) }
{
    match form {
        FileForm::Links => links_read(alloc, octets),
        _ => Ok(None),
    }
}

/// The conference of links that has these octets, where they are one and it is whole.
pub fn links_in(alloc: Global, octets: &[u8]) -> Result<Option<Conference>, NoMemory>
    ensures { IfOk result (λ found. option_map meaning_of found ≡ links_in octets.now) }
{
    if let Some(_) = foreign(octets) {
        return Ok(None);
    }
    if octets.len() > MOST_CHECKED_OCTETS {
        return Ok(None);
    }
    let form = form_of(alloc, octets)?;
    links_as(alloc, form, octets)
}
