//! Codes of point-to-point hellos (ISO/IEC 10589, 9.7; RFC 5303, 3). Code and definitions share these constants.

/// The PDU type of point-to-point IS-IS hellos (ISO/IEC 10589, 9.7).
pub const HELLO_TYPE: u8 = 17;
/// The number of octets before the TLVs of a point-to-point hello (ISO/IEC 10589, 9.7).
pub const HELLO_FRONT: u8 = 20;
/// Point-to-Point Three-Way Adjacency (RFC 5303, 3).
pub const TLV_THREE_WAY: u8 = 240;
