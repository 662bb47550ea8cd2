//! The files that the words name.
use crate::ending::NoAnswer;
use command_node::{NoDomain, domain_in};
use std::{fs, io};
use tool_host::{FileSource, SystemFiles};
use wire_base::{Domain, Status};

/// Returns the octets of a file.
pub fn octets_of(rt: &HostRuntime, path: &str) -> Result<Vec<u8>, Status> {
    match fs::read(rt, path) {
        Ok(octets) => Ok(octets),
        Err(error) if error.kind() == io::ErrorKind::OutOfMemory => Err(Status::Memory),
        Err(_) => Err(Status::ReadFault),
    }
}

/// Returns the domain that a file describes.
pub fn domain_of(rt: &HostRuntime, path: &str) -> Result<Domain, NoAnswer> {
    let files = SystemFiles::new(rt);
    match domain_in(rt.alloc(), &mut FileSource::new(&files, path)) {
        Ok(domain) => Ok(domain),
        Err(NoDomain::Refused(line)) => Err(NoAnswer::Refused(Status::ConfRefused, line)),
        Err(NoDomain::Stopped(why)) => Err(NoAnswer::Stopped(why)),
    }
}
