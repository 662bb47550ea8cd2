//! What is true of interfaces and their adjacencies. The bodies are empty: the contracts are the laws.
ghost use Rattle.std.specs.Prelude.{◌≡◌, ◌++◌, ◌⊎◌, ℕ, List, [], None, Some, false, option_map};
ghost use Rattle.std.specs.List.{AllByRecursion};
ghost use Rattle.wire_base.specs.model.Configuration.{DomainConf, IsValid};
ghost use Rattle.wire_base.specs.declared.hello_event.HelloEvent.{HelloEvent};
ghost use Rattle.isis_hello.specs.Events.{circuit_fault};
ghost use Rattle.replay_text.specs.declared.event.Line.{Line};
ghost use Rattle.replay_text.specs.Hand.{moves};
ghost use Rattle.domain_model.specs.declared.fault.EventFault.TheVariants as faults;
ghost use Rattle.domain_model.specs.Faults.{is_up_toward};
ghost use Rattle.replay_report.specs.declared.recording.Recording.{Recording};
ghost use Rattle.domain_handshake.specs.Following.{IsFollowed, IsRunning};
ghost use Rattle.domain_handshake.specs.Handshakes.{HandState, start_does, hello_does, world_does};
ghost use Rattle.domain_handshake.specs.Lines.{fault_of};

/// In a valid domain each interface goes down before the first line, and none of these events is rejected. So the interfaces follow the
/// adjacencies, which are down.
#[tactic(auto, using(crate::proofs::StartLaws::start_allowed, crate::proofs::StartLaws::start_down, crate::proofs::StartLaws::start_stands))]
pub fn interfaces_begin_down()
    ensures allowed { (d : DomainConf) (recording : Recording) → IsValid d → (start_does recording d).refused ≡ None }
    ensures down { (d : DomainConf) (recording : Recording) (a b : ℕ) → IsValid d → is_up_toward (start_does recording d).next.replay.world a b ≡ false }
    ensures runs { (d : DomainConf) (recording : Recording) → IsValid d → IsRunning d [] (start_does recording d).next }
{}

/// An event of hellos is rejected only for its own reasons, or with Events where the domain has no room for what follows from it. If it
/// is not, the interfaces follow the adjacencies after it as before it: no interface comes up that is up, and none goes down that is
/// down. A line of a schedule, which moves no interface, leaves all of them as they are, with each of its events.
#[tactic(auto, using(crate::proofs::FollowLaws::hello_rejected, crate::proofs::FollowLaws::world_follows, crate::proofs::FollowLaws::world_moments))]
pub fn hellos_move_interfaces()
    ensures rejected { (d : DomainConf) (before : List HelloEvent) (s : HandState) (line : ℕ) (e : HelloEvent) → IsValid d → IsRunning d before s →
        ((hello_does line s e).refused ≡ option_map fault_of (circuit_fault s.circuits e)) ⊎ ((hello_does line s e).refused ≡ Some faults.Events) }
    ensures hello { (d : DomainConf) (before : List HelloEvent) (s : HandState) (line : ℕ) (e : HelloEvent) → IsValid d → IsRunning d before s →
        (hello_does line s e).refused ≡ None → IsRunning d (before ++ (hello_does line s e).hellos) (hello_does line s e).next }
    ensures world { (d : DomainConf) (before : List HelloEvent) (s : HandState) (line : ℕ) (said : Line) → IsRunning d before s → moves said ≡ false →
        IsRunning d before (world_does line s said).next }
    ensures events { (d : DomainConf) (before : List HelloEvent) (s : HandState) (line : ℕ) (said : Line) → IsRunning d before s → moves said ≡ false →
        AllByRecursion IsFollowed (world_does line s said).moments }
{}
