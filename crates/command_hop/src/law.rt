//! What is true of every packet.
ghost use Rattle.std.specs.Prelude.{List, ℕ, All};
ghost use Rattle.command_hop.specs.HopText.{packets_of};
ghost use Rattle.command_hop.specs.Partition.{IsParted};

/// For any input of `hop`, each id of each of its packets is in exactly one of that packet's lines.
pub fn packets_are_parted()
    ensures { (input : List ℕ) → All IsParted (packets_of input) }
{}
