//! The types that all other crates share: small list types, the identifiers and the configuration of a BIER domain,
//! parse errors, parsers of fields at the start of a slice, events of hellos, and traits for input and output.
//!
//! The definitions that contracts use are in `specs/model`, one file a subject.
#![tactic(auto)]

mod addresses;
mod bsl;
mod bytes;
mod cause;
pub mod codepoints;
mod conf;
mod content;
mod domain;
mod effects;
mod entry;
pub mod ethernet;
mod faults;
mod few;
pub mod fields;
mod first_lists;
mod flood_out;
mod hello_event;
pub mod limits;
mod lists;
mod memory;
mod outside;
mod router_conf;
mod rules;
mod status;
mod steps;
mod triple;
mod view;

pub use addresses::{Ipv4, LspId, Mac, SystemId};
pub use bsl::Bsl;
pub use bytes::{BytesSink, BytesSource, QuietSink, QuietSource};
pub use cause::Cause;
pub use conf::{
    End, Kind, LabelRange, Level, LinkConf, OwnSub, PastRange, RouterConf, SubKind, TableRow,
    end_toward,
};
pub use content::Content;
pub use domain::Domain;
pub use effects::{Got, Sent};
pub use entry::{Age, Aged, Entry};
pub use faults::{
    CaptureFault, EdgeFault, FrameFault, HeadFault, InfoFault, IpFault, PduFault, PutFault,
    StackFault, TlvFault,
};
pub use few::Few;
pub use first_lists::{FirstLists, PositionRows};
pub use flood_out::{FloodOut, SnpOut};
pub use hello_event::HelloEvent;
pub use lists::{Name, Octets, Rows};
pub use memory::{M, Memory};
pub use outside::{Failed, Sink, Source};
pub use router_conf::kind_of;
pub use status::Status;
pub use steps::Steps;
pub use triple::{Summary, Triple};
pub use view::{EdgeList, First, RangeList, RowSet, SubList, View, ViewEdge, ViewNode, ViewSub};
