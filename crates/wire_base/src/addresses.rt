ghost use Rattle.std.proofs.Common.{rules};
ghost use Rattle.std.specs.Cmp.Rules.{comparing};
ghost use Rattle.std.specs.Prelude.{◌≡◌};
ghost use Rattle.std.specs.Str.{bytes_eq};
ghost use Rattle.wire_base.specs.model.Control.{fragment_0};

/// The system ID of an IS-IS router: six octets (ISO/IEC 10589, 7.1).
#[derive(Clone, Copy, Debug, Default, Eq, PartialOrd, Ord)]
pub struct SystemId(pub [u8; 6]);

impl PartialEq for SystemId {
    ghost eq = { λ a b. bytes_eq a.0 b.0 };

    ghost laws = { Prim.search (comparing, rules) };

    // Compares the last octet first: system IDs in one network mostly differ there.
    fn eq(&self, other: &SystemId) -> bool {
        let [a0, a1, a2, a3, a4, a5] = self.0;
        let [b0, b1, b2, b3, b4, b5] = other.0;
        a5 == b5 && a4 == b4 && a3 == b3 && a2 == b2 && a1 == b1 && a0 == b0
    }
}

/// An Ethernet address: six octets (IEEE 802.3, 3.2.3).
#[derive(Clone, Copy, Debug, Default, PartialEq, Eq, PartialOrd, Ord)]
pub struct Mac(pub [u8; 6]);

/// An IPv4 address: four octets.
#[derive(Clone, Copy, Debug, Default, PartialEq, Eq, PartialOrd, Ord)]
pub struct Ipv4(pub [u8; 4]);

/// An LSP ID: the system ID of the originator, the pseudonode number (0 for the router itself)
/// and the fragment number (ISO/IEC 10589, 9.8). LSP IDs are ordered by their eight octets.
#[derive(Clone, Copy, Debug, Default, PartialEq, Eq, PartialOrd, Ord)]
pub struct LspId {
    pub system: SystemId,
    pub pseudonode: u8,
    pub fragment: u8,
}

impl LspId {
    /// Returns the LSP ID of fragment 0 of a router, the fragment that lists the router's own entries.
    pub fn fragment_0(system: SystemId) -> LspId
        ensures { result ≡ fragment_0 system }
    {
        LspId {
            system,
            pseudonode: 0,
            fragment: 0,
        }
    }
}

impl std::fmt::Display for SystemId {
    /// Writes the system ID as `0000.0000.0001`.
    fn fmt<W: std::fmt::Write>(&self, f: &mut std::fmt::Formatter<W>) -> std::fmt::Result {
        let [a, b, c, d, e, g] = self.0;
        write!(f, "{a:02x}{b:02x}.{c:02x}{d:02x}.{e:02x}{g:02x}")
    }
}

impl std::fmt::Display for Mac {
    /// Writes the address as `02:00:00:01:00:00`.
    fn fmt<W: std::fmt::Write>(&self, f: &mut std::fmt::Formatter<W>) -> std::fmt::Result {
        let [a, b, c, d, e, g] = self.0;
        write!(f, "{a:02x}:{b:02x}:{c:02x}:{d:02x}:{e:02x}:{g:02x}")
    }
}

impl std::fmt::Display for Ipv4 {
    /// Writes the address as `10.0.0.1`.
    fn fmt<W: std::fmt::Write>(&self, f: &mut std::fmt::Formatter<W>) -> std::fmt::Result {
        let [a, b, c, d] = self.0;
        write!(f, "{a}.{b}.{c}.{d}")
    }
}

impl std::fmt::Display for LspId {
    /// Writes the LSP ID as `0000.0000.0001.00-00`: system ID, pseudonode number, fragment number.
    fn fmt<W: std::fmt::Write>(&self, f: &mut std::fmt::Formatter<W>) -> std::fmt::Result {
        write!(
            f,
            "{}.{:02x}-{:02x}",
            self.system, self.pseudonode, self.fragment
        )
    }
}
