//! The definitions of the report, computed for LSPs that were encoded by hand.
ghost use Rattle.std.specs.Prelude.{◌≡◌, ◌∷◌, [], codes};
ghost use Rattle.wire_base.specs.model.Flooding.{kept};
ghost use Rattle.laws_format.specs.Examples.{a_head, a_lsp_tlvs, system_of};
ghost use Rattle.topo_mt.specs.Examples.{two_routers};
ghost use Rattle.command_topo.specs.Lines.{topology_text};

/// The report on the standard topology of one LSP with a BIER Info, and those on topology 2 and on a topology that no LSP lists,
/// of two routers.
pub fn example_reports()
    ensures standard { topology_text 0 (system_of 1) 1 (kept a_head a_lsp_tlvs ∷ []) ≡ codes "node 0000.0000.0001 transit\nbier 0000.0000.0001 0 1 10.0.0.1\ndone records 1 lsps 1 nodes 1\n" }
    ensures listed { topology_text 2 (system_of 1) 2 two_routers ≡ codes "node 0000.0000.0001 transit\nnode 0000.0000.0002 overload\nedge 0000.0000.0001 0000.0000.0002 10\nedge 0000.0000.0002 0000.0000.0001 20\npath 0000.0000.0002 10\ndone records 2 lsps 2 nodes 2\n" }
    ensures unlisted { topology_text 3 (system_of 1) 2 two_routers ≡ codes "done records 2 lsps 2 nodes 0\n" }
{}
