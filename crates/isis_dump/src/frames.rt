//! A record of a capture: its number, its time, and the PDU in its frame.
use isis_text::{Shown, show_pdu, show_refused};
use link_frame::{Class, classify};
use pcap_frames::CapRecord;
use std::fmt::Write;
use wire_base::M;

/// Appends the number and the time, and `cut` if the capture contains only the beginning of the frame.
fn show_time(text: &mut String, number: u64, record: &CapRecord) -> M<()> {
    let (sec, usec) = (record.sec, record.usec);
    let cut = if record.whole { "" } else { "cut " };
    write!(text, "{number} {sec}.{usec:06} {cut}")?;
    Ok(())
}

/// Appends the lines of a record with an IS-IS frame, or the rule that the frame breaks. An invalid Ethernet frame may have
/// been an IS-IS frame. Returns None for any other frame, which is ignored.
pub fn show_record(text: &mut String, number: u64, record: &CapRecord) -> M<Option<Shown>> {
    let frame = record.octets.as_slice();
    match classify(frame) {
        Ok(Class::Isis { from, to }) => {
            show_time(text, number, record)?;
            Ok(Some(show_pdu(text, &frame[from..to])?))
        }
        Ok(_) => Ok(None),
        Err(fault) => {
            show_time(text, number, record)?;
            show_refused(text, "", "frame", fault.number(), fault.name())?;
            Ok(Some(Shown::Refused))
        }
    }
}
