ghost use Rattle.std.specs.Prelude.{◌≡◌, [], ◌∷◌, ◌++◌, take, Ok, Err, Some, None};
ghost use Rattle.wire_base.specs.declared.faults.IpFault.TheVariants.{Short, Version, Options, Length, Checksum, Fragment, NotGre, GreShort, GreFlags, GreType};
ghost use Rattle.wire_base.specs.model.Tunnel.{IsTunnel, tunnel, tunnel_at, tunnel_on, ones_sum};
ghost use Rattle.wire_base.specs.model.Item.{target_of, IsDirect};
ghost use Rattle.examples_model.specs.Domains.{ring};
ghost use Rattle.examples_model.specs.Frames.{copy, from_a};
ghost use Rattle.examples_model.specs.Tunnels.{plain, more_fragments, at_an_offset, of_tcp, of_22_octets, of_19_octets, of_service, gre_mpls, inside, whole, packet};

/// A tunnel packet is parsed, whatever its type of service, its identification and the octets after it.
#[tactic(auto, unfolding(wire_base::specs::model::Tunnel::tunnel_at, wire_base::specs::model::Tunnel::tunnel_head))]
pub fn tunnels_are_read()
    ensures spelled { tunnel packet ≡ whole }
    ensures read { tunnel_at (whole ++ 7 ∷ 7 ∷ []) ≡ Ok packet }
    ensures free { tunnel_at (of_service ++ (gre_mpls ++ inside)) ≡ Ok packet }
    ensures grammar { IsTunnel (whole ++ 7 ∷ 7 ∷ []) packet }
{}

/// The first rule that invalid octets break.
#[tactic(auto, unfolding(wire_base::specs::model::Tunnel::tunnel_at))]
pub fn what_is_no_tunnel()
    ensures short { tunnel_at (take 19 whole) ≡ Err Short }
    ensures version { tunnel_at (101 ∷ take 30 whole) ≡ Err Version }
    ensures options { tunnel_at (70 ∷ take 30 whole) ≡ Err Options }
    ensures below { tunnel_at (of_19_octets ++ (gre_mpls ++ inside)) ≡ Err Length }
    ensures above { tunnel_at (take 45 whole) ≡ Err Length }
    ensures checksum { tunnel_at (take 19 whole ++ (4 ∷ (gre_mpls ++ inside))) ≡ Err Checksum }
    ensures more { tunnel_at (more_fragments ++ (gre_mpls ++ inside)) ≡ Err Fragment }
    ensures offset { tunnel_at (at_an_offset ++ (gre_mpls ++ inside)) ≡ Err Fragment }
    ensures protocol { tunnel_at (of_tcp ++ (gre_mpls ++ inside)) ≡ Err NotGre }
    ensures room { tunnel_at (of_22_octets ++ (gre_mpls ++ inside)) ≡ Err GreShort }
    ensures flags { tunnel_at (plain ++ (128 ∷ 0 ∷ 136 ∷ 71 ∷ inside)) ≡ Err GreFlags }
    ensures inner { tunnel_at (plain ++ (0 ∷ 0 ∷ 8 ∷ 0 ∷ inside)) ≡ Err GreType }
{}

/// In one's complement sums the carry above 16 bits is added again, and the sum is 0 only for zeros.
pub fn ones_complement_sums()
    ensures zero { ones_sum 0 ≡ 0 }
    ensures full { ones_sum 65535 ≡ 65535 }
    ensures carry { ones_sum 65536 ≡ 1 }
    ensures twice { ones_sum 131070 ≡ 65535 }
{}

/// A tunnel packet is for the router with its destination address, any other copy for the router that it is sent to.
pub fn what_items_are_for()
    ensures direct { target_of ring.routers 1 (copy 0 200 (3 ∷ []) None) ≡ Some 1 }
    ensures tunnel { target_of ring.routers 1 (copy 0 300 (3 ∷ []) (from_a 3 255)) ≡ Some 2 }
    ensures nowhere { target_of ring.routers 1 (copy 0 300 (3 ∷ []) (from_a 9 255)) ≡ None }
    ensures is_direct { IsDirect (copy 0 200 (3 ∷ []) None) }
{}
