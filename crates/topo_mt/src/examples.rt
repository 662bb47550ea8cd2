//! The definitions, computed for LSPs that were encoded by hand.
ghost use Rattle.std.specs.Prelude.{◌≡◌, [], Some};
ghost use Rattle.laws_format.specs.Examples.{system_of};
ghost use Rattle.topo_mt.specs.Examples.{two_alone, two_nodes, two_routers};
ghost use Rattle.topo_mt.specs.Topology.{cost_from, topology_of};

/// Two routers with a link between them in topology 2, in which the second has its O bit set: that topology, one that neither
/// lists, the standard one, and the cost of a path.
pub fn example_topologies()
    ensures listed { topology_of 2 two_routers ≡ two_nodes }
    ensures unlisted { topology_of 3 two_routers ≡ [] }
    ensures standard { topology_of 0 two_routers ≡ two_alone }
    ensures cost { cost_from two_nodes (system_of 1) 1 ≡ Some 10 }
{}
