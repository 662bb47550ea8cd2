//! Worked examples of the definitions of captures. The bodies are empty: the contracts are proved by computation.
ghost use Rattle.std.specs.Prelude.{◌≡◌, ◌++◌, ℕ, List, [], ◌∷◌, true, false, Ok, Err, None, Some};
ghost use Rattle.pcapng_frames.specs.declared.faults.NgFault.TheVariants as faults;
ghost use Rattle.pcapng_frames.specs.declared.order.Order.TheVariants.{Big, Little};
ghost use Rattle.pcapng_frames.specs.Blocks.{block_at};
ghost use Rattle.pcapng_frames.specs.Times.{units, moment_of, moment_in, padded, resolution_of};
ghost use Rattle.pcapng_frames.specs.Written.{written_head, written_packet, written_interfaces};

/// The head of a capture with two interfaces.
#[tactic(auto, unfolding(crate::specs::Written::written_interfaces))]
pub fn head_of_two()
    ensures { written_head 2 ≡ 10 ∷ 13 ∷ 13 ∷ 10 ∷ 28 ∷ 0 ∷ 0 ∷ 0 ∷ 77 ∷ 60 ∷ 43 ∷ 26 ∷ 1 ∷ 0 ∷ 0 ∷ 0 ∷ 255 ∷ 255 ∷ 255 ∷ 255 ∷ 255 ∷ 255 ∷ 255 ∷ 255 ∷ 28 ∷ 0 ∷ 0 ∷ 0 ∷ 1 ∷ 0 ∷ 0 ∷ 0 ∷ 20 ∷ 0 ∷ 0 ∷ 0 ∷ 1 ∷ 0 ∷ 0 ∷ 0 ∷ 255 ∷ 255 ∷ 0 ∷ 0 ∷ 20 ∷ 0 ∷ 0 ∷ 0 ∷ 1 ∷ 0 ∷ 0 ∷ 0 ∷ 20 ∷ 0 ∷ 0 ∷ 0 ∷ 1 ∷ 0 ∷ 0 ∷ 0 ∷ 255 ∷ 255 ∷ 0 ∷ 0 ∷ 20 ∷ 0 ∷ 0 ∷ 0 ∷ [] }
{}

/// An IS-IS frame of 68 octets that was sent on the first interface after one second: 1,000,000 is 0F4240.
pub fn packet_of_isis()
    ensures { written_packet 0 1 0 (9 ∷ 0 ∷ 43 ∷ 0 ∷ 0 ∷ 5 ∷ 2 ∷ 0 ∷ 0 ∷ 0 ∷ 0 ∷ 1 ∷ 0 ∷ 54 ∷ 254 ∷ 254 ∷ 3 ∷ 131 ∷ 33 ∷ 1 ∷ 0 ∷ 25 ∷ 1 ∷ 0 ∷ 0 ∷ 0 ∷ 51 ∷ 0 ∷ 0 ∷ 0 ∷ 0 ∷ 0 ∷ 1 ∷ 0 ∷ 0 ∷ 0 ∷ 0 ∷ 0 ∷ 0 ∷ 0 ∷ 0 ∷ 0 ∷ 255 ∷ 255 ∷ 255 ∷ 255 ∷ 255 ∷ 255 ∷ 255 ∷ 255 ∷ 9 ∷ 16 ∷ 4 ∷ 176 ∷ 0 ∷ 0 ∷ 0 ∷ 0 ∷ 0 ∷ 1 ∷ 0 ∷ 0 ∷ 0 ∷ 0 ∷ 0 ∷ 1 ∷ 85 ∷ 78 ∷ []) ≡ 6 ∷ 0 ∷ 0 ∷ 0 ∷ 100 ∷ 0 ∷ 0 ∷ 0 ∷ 0 ∷ 0 ∷ 0 ∷ 0 ∷ 0 ∷ 0 ∷ 0 ∷ 0 ∷ 64 ∷ 66 ∷ 15 ∷ 0 ∷ 68 ∷ 0 ∷ 0 ∷ 0 ∷ 68 ∷ 0 ∷ 0 ∷ 0 ∷ 9 ∷ 0 ∷ 43 ∷ 0 ∷ 0 ∷ 5 ∷ 2 ∷ 0 ∷ 0 ∷ 0 ∷ 0 ∷ 1 ∷ 0 ∷ 54 ∷ 254 ∷ 254 ∷ 3 ∷ 131 ∷ 33 ∷ 1 ∷ 0 ∷ 25 ∷ 1 ∷ 0 ∷ 0 ∷ 0 ∷ 51 ∷ 0 ∷ 0 ∷ 0 ∷ 0 ∷ 0 ∷ 1 ∷ 0 ∷ 0 ∷ 0 ∷ 0 ∷ 0 ∷ 0 ∷ 0 ∷ 0 ∷ 0 ∷ 255 ∷ 255 ∷ 255 ∷ 255 ∷ 255 ∷ 255 ∷ 255 ∷ 255 ∷ 9 ∷ 16 ∷ 4 ∷ 176 ∷ 0 ∷ 0 ∷ 0 ∷ 0 ∷ 0 ∷ 1 ∷ 0 ∷ 0 ∷ 0 ∷ 0 ∷ 0 ∷ 1 ∷ 85 ∷ 78 ∷ 100 ∷ 0 ∷ 0 ∷ 0 ∷ [] }
{}

/// A frame of five octets is followed by three of padding.
pub fn packet_of_five()
    ensures { written_packet 0 1 0 (1 ∷ 2 ∷ 3 ∷ 4 ∷ 5 ∷ []) ≡ 6 ∷ 0 ∷ 0 ∷ 0 ∷ 40 ∷ 0 ∷ 0 ∷ 0 ∷ 0 ∷ 0 ∷ 0 ∷ 0 ∷ 0 ∷ 0 ∷ 0 ∷ 0 ∷ 64 ∷ 66 ∷ 15 ∷ 0 ∷ 5 ∷ 0 ∷ 0 ∷ 0 ∷ 5 ∷ 0 ∷ 0 ∷ 0 ∷ 1 ∷ 2 ∷ 3 ∷ 4 ∷ 5 ∷ 0 ∷ 0 ∷ 0 ∷ 40 ∷ 0 ∷ 0 ∷ 0 ∷ [] }
{}

/// Times are cut down: a third of a second in nanoseconds, and 3/1024 of a second in units of 2^-10. A second at 2^32 doesn't fit.
pub fn times()
    ensures nanoseconds { moment_in 5333333333 (units 9) ≡ Some (record { sec = 5; usec = 333333 }) }
    ensures binary { moment_in 1027 (units 138) ≡ Some (record { sec = 1; usec = 2929 }) }
    ensures late { moment_in 4294967296 (units 0) ≡ None }
    ensures coarse { units 19 ≡ None }
    ensures fine { units 192 ≡ None }
{}

/// The resolution is the octet of the first option 9 of length 1, here after a comment; it isn't read after the end of the options.
#[tactic(auto, unfolding(crate::specs::Times::resolution_of, crate::specs::Times::resolution_by))]
pub fn resolutions()
    ensures found { resolution_of Big (0 ∷ 1 ∷ 0 ∷ 2 ∷ 104 ∷ 105 ∷ 0 ∷ 0 ∷ 0 ∷ 9 ∷ 0 ∷ 1 ∷ 9 ∷ 0 ∷ 0 ∷ 0 ∷ 0 ∷ 9 ∷ 0 ∷ 1 ∷ 3 ∷ 0 ∷ 0 ∷ 0 ∷ []) ≡ 9 }
    ensures ended { resolution_of Little (0 ∷ 0 ∷ 0 ∷ 0 ∷ 9 ∷ 0 ∷ 1 ∷ 0 ∷ 9 ∷ 0 ∷ 0 ∷ 0 ∷ []) ≡ 6 }
    ensures overrun { resolution_of Little (9 ∷ 0 ∷ 1 ∷ 0 ∷ []) ≡ 6 }
{}

/// What is tested when: the type at 4 octets, the byte-order magic at 12, a total length at 8.
#[tactic(auto, unfolding(crate::specs::Blocks::block_at))]
pub fn first_tests()
    ensures magic { block_at None (10 ∷ 13 ∷ 13 ∷ 11 ∷ []) ≡ Err faults.NgMagic }
    ensures not_yet { block_at None (10 ∷ 13 ∷ 13 ∷ 10 ∷ 0 ∷ 0 ∷ 0 ∷ 0 ∷ 1 ∷ 2 ∷ 3 ∷ []) ≡ Ok None }
    ensures order { block_at None (10 ∷ 13 ∷ 13 ∷ 10 ∷ 0 ∷ 0 ∷ 0 ∷ 0 ∷ 1 ∷ 2 ∷ 3 ∷ 4 ∷ []) ≡ Err faults.NgOrder }
    ensures length { block_at (Some Little) (6 ∷ 0 ∷ 0 ∷ 0 ∷ 28 ∷ 0 ∷ 0 ∷ 0 ∷ []) ≡ Err faults.NgLength }
    ensures other { block_at (Some Little) (7 ∷ 0 ∷ 0 ∷ 0 ∷ 28 ∷ 0 ∷ 0 ∷ 0 ∷ []) ≡ Ok None }
{}
