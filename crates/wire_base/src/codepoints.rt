//! Codes of TLVs, sub-TLVs and sub-sub-TLVs (IANA's registries of IS-IS TLV codepoints and of BIER). Code and definitions
//! share these constants.

/// Area Addresses (ISO/IEC 10589, 9.8).
pub const TLV_AREA_ADDRESSES: u8 = 1;
/// LSP Entries of a CSNP or PSNP (ISO/IEC 10589, 9.10 to 9.13).
pub const TLV_LSP_ENTRIES: u8 = 9;
/// Extended IS Reachability (RFC 5305, 3).
pub const TLV_EXTENDED_IS_REACH: u8 = 22;
/// Protocols Supported (RFC 1195, 5.3.1).
pub const TLV_PROTOCOLS_SUPPORTED: u8 = 129;
/// Extended IP Reachability (RFC 5305, 4).
pub const TLV_EXTENDED_IP_REACH: u8 = 135;
/// Dynamic Hostname (RFC 5301, 3).
pub const TLV_DYNAMIC_HOSTNAME: u8 = 137;

/// BIER Info, a sub-TLV of an Extended IP Reachability entry (RFC 8401, 6.1).
pub const SUB_TLV_BIER_INFO: u8 = 32;
/// BIER MPLS Encapsulation, a sub-sub-TLV of BIER Info (RFC 8401, 6.2).
pub const SUB_SUB_TLV_BIER_MPLS: u8 = 1;

/// The network layer protocol identifier (NLPID) of IPv4, as TLV 129 lists it (RFC 1195, 5.3.1).
pub const NLPID_IPV4: u8 = 0xcc;
