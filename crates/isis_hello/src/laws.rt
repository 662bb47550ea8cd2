//! Laws of hellos and of adjacencies. Each function does nothing; its contract is the law.
ghost use Rattle.std.specs.Prelude.{◌≡◌, ◌++◌, ◌≤◌, [], ℕ, List, Ok, Some, None, true, false, length};
ghost use Rattle.wire_base.specs.declared.conf.Level.{Level};
ghost use Rattle.wire_base.specs.declared.conf.End.{End};
ghost use Rattle.wire_base.specs.declared.conf.RouterConf.{RouterConf};
ghost use Rattle.wire_base.specs.model.Configuration.{DomainConf, IsValid};
ghost use Rattle.wire_base.specs.model.Fields.{AreOctets};
ghost use Rattle.wire_base.specs.declared.hello_event.HelloEvent.{HelloEvent};
ghost use Rattle.isis_hello.specs.declared.hello.Hello.{Hello};
ghost use Rattle.isis_hello.specs.Changes.{AreChanges, is_hello, up_between};
ghost use Rattle.isis_hello.specs.Circuits.{CircuitsState, first_circuits};
ghost use Rattle.isis_hello.specs.Events.{happens, hello_frame, hello_in};
ghost use Rattle.isis_hello.specs.Hello.{HelloFits, IsHello, hello, hello_at};
ghost use Rattle.isis_hello.specs.History.{AllHeld, circuits_after};

/// Encoding and parsing of hellos (ISO/IEC 10589, 9.7; RFC 5303, 3).
#[tactic(auto, using(crate::proofs::ReadLemmas::hello_found, crate::proofs::ReadLemmas::hello_only, crate::proofs::ReadLemmas::hello_is, crate::proofs::ReadLemmas::hello_again, crate::proofs::FrameLemmas::frame_parsed))]
pub fn hello_law()
    // What is parsed is in the grammar, and what is in the grammar is parsed.
    ensures read { (octets : List ℕ) (h : Hello) → AreOctets octets → hello_at octets ≡ Ok h → IsHello octets h }
    ensures only { (octets : List ℕ) (h : Hello) → IsHello octets h → hello_at octets ≡ Ok h }
    // The encoding is in the grammar, and is parsed again, whatever follows it.
    ensures spelled { (level : Level) (area : List ℕ) (h : Hello) (rest : List ℕ) → length area ≤ 13 → HelloFits h → IsHello (hello level area h ++ rest) h }
    ensures again { (level : Level) (area : List ℕ) (h : Hello) (rest : List ℕ) → length area ≤ 13 → HelloFits h → hello_at (hello level area h ++ rest) ≡ Ok h }
    // A receiver parses it from its frame.
    ensures framed { (r : RouterConf) (e : End) (h : Hello) → length r.area ≤ 13 → HelloFits h → length e.own_mac.0 ≡ 6 → hello_in (hello_frame r e h) ≡ Some h }
{}

/// After any history of hello events, each adjacency that is up rests on a hello that its router received, less than the holding
/// time ago and since it last restarted or its circuit failed, that its neighbor had sent, and that lists this router's
/// system ID and circuit; and before the neighbor sent that hello, it had received one of this router's (RFC 5303, 3).
#[tactic(auto, using(crate::proofs::HeldLaws::all_held))]
pub fn adjacencies_are_held()
    ensures { (d : DomainConf) (history : List HelloEvent) → IsValid d → AllHeld d history }
{}

/// After any history, the changes that an event reports are those of the adjacencies. Of a router toward another there is one if the
/// adjacency came up, or was up and no longer is, with its new state, and none otherwise. Each is at a router of the domain, toward
/// one that a link joins it to. Done one after the other, they lead from the adjacencies that were up to those that are.
pub fn changes_are_reported()
    ensures { (d : DomainConf) (history : List HelloEvent) (e : HelloEvent) → IsValid d → AreChanges (circuits_after d history) (happens (circuits_after d history) e) }
{}

/// At the beginning no adjacency is up.
#[tactic(auto, using(crate::proofs::ChangeLaws::none_up))]
pub fn adjacencies_begin_down()
    ensures { (d : DomainConf) (a : ℕ) (b : ℕ) → up_between (first_circuits d) a b ≡ false }
{}

/// Only [`HelloEvent::Hello`](crate::HelloEvent::Hello) sends a frame, and it moves no adjacency.
#[tactic(auto, using(crate::proofs::ChangeLaws::only_hellos, crate::proofs::ChangeLaws::hello_unreported, crate::proofs::ChangeLaws::hello_unmoved))]
pub fn only_hellos_send()
    ensures sent { (s : CircuitsState) (e : HelloEvent) → is_hello e ≡ false → (happens s e).out.sent ≡ None }
    ensures reported { (s : CircuitsState) (e : HelloEvent) → is_hello e ≡ true → (happens s e).out.changes ≡ [] }
    ensures still { (s : CircuitsState) (e : HelloEvent) → is_hello e ≡ true → (happens s e).state.circuits ≡ s.circuits }
{}
