//! The end of a report on a capture that is rejected.
ghost use Rattle.std.specs.Prelude.{◌≡◌, ◌<◌, ◌^◌, ◌++◌, ◌∷◌, [], codes, IfOk, OnOk};
ghost use Rattle.std.specs.Fmt.{decimal};
ghost use Rattle.replay_text.specs.Fault.{rule_text};
ghost use Rattle.command_drive.specs.Answer.{behind};
ghost use Rattle.command_drive.specs.Captured as captured;

use crate::capture_reader::RecordFault;
use replay_text::push_rule;
use wire_base::{CaptureFault, M, Octets, Status};

/// Returns the number of the record that has an error, after the records that were done. The header of a pcap capture has
/// the number 0. An error of a pcapng capture is at the next packet.
fn fault_record(records: u64, why: RecordFault) -> u64
    requires { records < 2 ^ 63 }
    ensures { result ≡ captured.fault_record records why }
{
    match why {
        RecordFault::Pcap(fault) => pcap_fault_record(records, fault),
        RecordFault::Pcapng(_) => records + 1,
    }
}

/// The same for a pcap capture.
fn pcap_fault_record(records: u64, why: CaptureFault) -> u64
    requires { records < 2 ^ 63 }
    ensures { result ≡ captured.pcap_fault_record records why }
{
    match why {
        CaptureFault::Magic
        | CaptureFault::Version
        | CaptureFault::LinkType
        | CaptureFault::CutHeader => 0,
        CaptureFault::CutRecord | CaptureFault::LongRecord | CaptureFault::Memory => records + 1,
    }
}

/// Appends the start of the line for a rejection: the number of the record, and the number and the name of the rule
/// that it breaks.
pub fn push_refused(out: &mut Octets, number: u64, rule: u8, name: &[u8]) -> M<()>
    ensures { OnOk result (out.new ≡ out.old ++ (codes "refused record " ++ (decimal number ++ 32 ∷ rule_text rule name.now))) }
{
    out.append(b"refused record ")?;
    out.append_number(number)?;
    out.push(b' ')?;
    push_rule(out, rule, name)
}

/// Ends a report at a record that breaks a rule.
fn refuse(out: &mut Octets, number: u64, rule: u8, name: &[u8]) -> M<Status>
    ensures { IfOk result (λ ended. (ended, out.new) ≡ behind out.old (captured.refused_record number (decimal rule ∷ name.now ∷ []))) }
{
    push_refused(out, number, rule, name)?;
    out.push(b'\n')?;
    Ok(Status::CaptureRefused)
}

/// Ends a report at an error in the capture, after that many records.
pub fn refuse_by(out: &mut Octets, records: u64, why: RecordFault) -> M<Status>
    requires { records < 2 ^ 63 }
    ensures { IfOk result (λ ended. (ended, out.new) ≡ behind out.old (captured.refused_by records why)) }
{
    refuse(out, fault_record(records, why), why.number(), why.name())
}

/// Ends a report at the record that exceeds the size limit of a capture, after that many records.
pub fn refuse_length(out: &mut Octets, records: u64) -> M<Status>
    requires { records < 2 ^ 63 }
    ensures { IfOk result (λ ended. (ended, out.new) ≡ behind out.old (captured.too_long records)) }
{
    refuse(out, records + 1, 8, b"TooLong")
}
