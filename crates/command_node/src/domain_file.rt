//! The domain file, which is read as a whole.
ghost use Rattle.std.specs.Prelude.{◌≡◌, ◌≢◌, ◌<◌, ◌≤◌, IfOk, IfErr, OnOk, length};
ghost use Rattle.std.specs.Io.KnownBytes.{IsAtEnd};
ghost use Rattle.wire_base.specs.Causes.{last_count};
ghost use Rattle.wire_base.specs.declared.status.Status.TheVariants as status;
ghost use Rattle.domain_conf.specs.declared.fault.ConfFault.TheVariants as faults;
ghost use Rattle.command_node.specs.declared.domain_file.NoDomain.TheVariants as no;
ghost use Rattle.command_node.specs.DomainFile.{Says, ReadsAs, StoppedBy, HasNone, conf_refused_text};

use command_drive::buffer;
use domain_conf::{ConfFault, read_domain};
use std::alloc::Global;
use wire_base::limits::DOMAIN_FILE_LIMIT;
use wire_base::{Domain, M, Memory, Octets, Source, Status};

/// Why there is no domain.
#[derive(Drop)]
pub enum NoDomain {
    /// The file breaks a rule, and this is the line that reports it.
    Refused(Octets),
    /// A read failed, or memory ran out.
    Stopped(Status),
}

impl From<Memory> for NoDomain {
    ghost from_gives = { λ _ e. e ≡ no.Stopped status.Memory };

    fn from(_: Memory) -> Self {
        NoDomain::Stopped(Status::Memory)
    }
}

impl From<Status> for NoDomain {
    ghost from_gives = { λ why e. e ≡ no.Stopped why };

    fn from(why: Status) -> Self {
        NoDomain::Stopped(why)
    }
}

/// Returns all that a source holds, or a prefix if that already is too long for a domain file.
fn read_whole<D: Source>(alloc: Global, conf: &mut D) -> Result<Octets, Status>
    requires faults { D.faults conf.old < last_count }
    ensures text { IfOk result (λ text. ReadsAs (D.left conf.old) text) }
    ensures end { IfOk result (λ text. length text ≤ DOMAIN_FILE_LIMIT → IsAtEnd (D.left conf.new)) }
    ensures quiet { OnOk result (D.faults conf.new ≡ D.faults conf.old) }
    ensures stopped { IfErr result (λ why. StoppedBy (D.faults conf.old) (D.faults conf.new) why) }
{
    let mut buffer = buffer(alloc)?;
    let mut text = Octets::new(alloc);
    'pieces: while text.len() <= DOMAIN_FILE_LIMIT {
        let Ok(count) = conf.read(&mut buffer) else {
            return Err(Status::ReadFault);
        };
        if count == 0 {
            return Ok(text);
        }
        text.append(&buffer[..count])?;
    }
    Ok(text)
}

/// Returns the line for a file that breaks a rule: `refused conf N NAME PATH`. If `why` is out of memory, that is
/// returned.
fn refused_line(alloc: Global, why: &ConfFault) -> M<Octets>
    ensures known { OnOk result (why.now ≢ faults.Memory) }
    ensures text { IfOk result (λ line. line ≡ conf_refused_text why.now) }
{
    if let ConfFault::Memory = why {
        return Err(Memory);
    }
    let mut line = Octets::new(alloc);
    line.append(b"refused conf ")?;
    line.append_number(u64::from(why.number()))?;
    line.push(b' ')?;
    line.append(why.name())?;
    line.push(b' ')?;
    line.append(why.path())?;
    line.push(b'\n')?;
    Ok(line)
}

/// Returns the domain that a source's file describes. The error is the line that reports the first rule that the file
/// breaks, or the read error or out of memory that stopped the reading. A file that is accepted was read to its end.
pub fn domain_in<D: Source>(alloc: Global, conf: &mut D) -> Result<Domain, NoDomain>
    requires faults { D.faults conf.old < last_count }
    ensures domain { IfOk result (λ domain. Says (D.left conf.old) domain) }
    ensures end { OnOk result (IsAtEnd (D.left conf.new)) }
    ensures quiet { OnOk result (D.faults conf.new ≡ D.faults conf.old) }
    ensures none { IfErr result (λ why. HasNone (D.left conf.old) (D.faults conf.old) (D.faults conf.new) why) }
{
    let text = read_whole(alloc, conf)?;
    match read_domain(alloc, text.as_slice()) {
        Ok(domain) => Ok(domain),
        Err(why) => Err(NoDomain::Refused(refused_line(alloc, &why)?)),
    }
}
