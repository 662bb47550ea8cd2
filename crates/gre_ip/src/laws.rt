//! Laws of tunnel packets. The function does nothing; its contract states the laws.
ghost use Rattle.std.specs.Prelude.{◌≡◌, ◌<◌, ◌++◌, ℕ, List, Ok};
ghost use Rattle.wire_base.specs.model.Fields.{AreOctets};
ghost use Rattle.wire_base.specs.model.Tunnel.{TunnelPacket, TunnelFits, IsTunnel, tunnel, tunnel_at, tunnel_on};

/// Encoding, parsing and forwarding of tunnel packets (RFC 791, 3.1; RFC 2784, 2).
pub fn tunnel_law()
    // What is parsed is in the grammar, and what is in the grammar is parsed.
    ensures read { (octets : List ℕ) (t : TunnelPacket) → AreOctets octets → tunnel_at octets ≡ Ok t → IsTunnel octets t }
    ensures only { (octets : List ℕ) (t : TunnelPacket) → IsTunnel octets t → tunnel_at octets ≡ Ok t }
    // The encoding is in the grammar, whatever follows it.
    ensures spelled { (t : TunnelPacket) (rest : List ℕ) → TunnelFits t → IsTunnel (tunnel t ++ rest) t }
    // Tunnel packets with the same encoding are equal.
    ensures one { (a b : TunnelPacket) → TunnelFits a → TunnelFits b → tunnel a ≡ tunnel b → a ≡ b }
    // A forwarded packet is the same packet with another TTL, whatever followed the received one.
    ensures onward { (octets rest : List ℕ) (t : TunnelPacket) (ttl : ℕ) → IsTunnel octets t → ttl < 256
        → IsTunnel (tunnel_on octets ttl ++ rest) (record t { ttl = ttl }) }
    ensures spelled_onward { (t : TunnelPacket) (rest : List ℕ) (ttl : ℕ) → TunnelFits t
        → tunnel_on (tunnel t ++ rest) ttl ≡ tunnel (record t { ttl = ttl }) }
{}
