//! The definitions, computed for the handshake of two routers.
ghost use Rattle.std.specs.Prelude.{◌≡◌, ◌∷◌, [], true, Some};
ghost use Rattle.isis_hello.specs.Circuits.{first_circuits};
ghost use Rattle.isis_hello.specs.Events.{happens, hello_in};
ghost use Rattle.isis_hello.specs.Examples.{a_frame, a_hello, changes_from, pair, three_hellos};
ghost use Rattle.wire_base.specs.declared.hello_event.HelloEvent.TheVariants as events;

/// A's first hello: its frame of 53 octets, and the result of parsing it.
pub fn example_hello()
    ensures sent { (happens (first_circuits pair) (events.Hello 0 1)).out.sent ≡ Some a_frame }
    ensures parsed { hello_in a_frame ≡ Some a_hello }
{}

/// Of three hellos, the second brings A's adjacency up, and the third B's.
pub fn example_handshake()
    ensures { changes_from (first_circuits pair) three_hellos ≡ [] ∷ [] ∷ [] ∷ (record { router = 0; peer = 1; up = true } ∷ []) ∷ [] ∷ (record { router = 1; peer = 0; up = true } ∷ []) ∷ [] }
{}
