//! Tables of octets, and of the results of the parsers of headers, frames, tunnels, TLVs, PDUs, captures and domain files, and of
//! the writers of PDUs. Most of the results were computed by other software. This crate contains only tests.
#![tactic(auto)]

#[cfg(test)]
mod captures;
#[cfg(test)]
mod domains;
#[cfg(test)]
mod entries;
#[cfg(test)]
mod frames;
#[cfg(test)]
mod headers;
#[cfg(test)]
mod infos;
#[cfg(test)]
mod pdus;
#[cfg(test)]
mod rows;
#[cfg(test)]
mod told;
#[cfg(test)]
mod tunnels;
#[cfg(test)]
mod written;
