//! What is true of the run of a schedule with hellos. The bodies are empty: the contracts are the laws.
ghost use Rattle.std.specs.Prelude.{ℕ, List};
ghost use Rattle.wire_base.specs.model.Configuration.{DomainConf, IsValid};
ghost use Rattle.laws_replay.specs.Promises.{KeepsPromises};
ghost use Rattle.command_handshake.specs.Followed.{KeepsHandshakes};
ghost use Rattle.command_handshake.specs.Shaken.{shaken};

/// In a valid domain the run of a schedule with hellos keeps all that is promised of the run of a replay, for any lines and
/// wherever one is rejected. The events of interfaces are among those of the run.
pub fn handshakes_keep_promises()
    ensures { (d : DomainConf) (lines : List (List ℕ)) → IsValid d → KeepsPromises d (shaken d lines).run }
{}

/// In a valid domain interfaces follow the three-way handshake. Each goes down before the first line, and none of these events is
/// rejected. From then on an interface is up exactly where its adjacency is, before and after each event of the lines, up to the event
/// or the line that is rejected, if one is; and an adjacency that is up rests on a hello that its router received, that lists this
/// router, and that the neighbor sent after it had received one of this router's (RFC 5303, 3).
pub fn interfaces_follow_adjacencies()
    ensures { (d : DomainConf) (lines : List (List ℕ)) → IsValid d → KeepsHandshakes d lines }
{}
