//! What the field types of an event imply about its numbers. This code computes nothing.
ghost use Rattle.std.specs.Prelude.{◌<◌, ◌^◌};
ghost use Rattle.std.specs.List.{AllByRecursion};
ghost use Rattle.domain_replay.specs.Replaying.{NumbersFit};

use replay_text::Event;

fn ids_fit(ids: &[u16])
    ensures { AllByRecursion (λ k. k < 2 ^ 16) ids.now }
{
    for id in ids {
        let _id = *id;
    }
}

/// Proves that the numbers of an event fit their types.
pub fn numbers_fit(event: &Event)
    ensures { NumbersFit event.now }
{
    match event {
        Event::Inject { sd, ids, ttl, .. } => {
            let _sd = *sd;
            let _ttl = *ttl;
            ids_fit(ids.as_slice());
        }
        Event::Take { .. } => (),
        Event::Lose { .. } => (),
        Event::Again { .. } => (),
        Event::Down { .. } => (),
        Event::Up { .. } => (),
        Event::Send { .. } => (),
        Event::Tick { .. } => (),
        Event::Restart { .. } => (),
        Event::Relabel { .. } => (),
        Event::Leave { .. } => (),
        Event::Join { .. } => (),
    }
}
