//! The events of a file in which only `say` is allowed.

ghost use Rattle.std.specs.Prelude.{◌≡◌, IfOk, map};
ghost use Rattle.std.specs.List.{All};
ghost use Rattle.noise_vectors.specs.VectorFile.{IsAllowed, say_of};
ghost use Rattle.noise_vectors.specs.declared.vector.AllowedEvents.TheVariants.{SayOnly};

use noise_events::{Cuts, Event};
use noise_names::Role;
use std::alloc::{AllocError, Global};

/// What is said, in its order: the role, the payload and the chunks of each event.
pub fn said_lines(
    alloc: Global,
    events: Vec<Event>,
) -> Result<Vec<(Role, Vec<u8>, Cuts)>, AllocError>
    requires allowed { All (IsAllowed SayOnly) events.items }
    ensures lines { IfOk result (λ lines. events.items ≡ map say_of lines.items) }
{
    let mut lines = Vec::new(alloc);
    for event in events {
        match event {
            Event::Say(role, payload, cuts) => lines.push((role, payload, cuts))?,
            _ => unreachable!(),
        }
    }
    Ok(lines)
}
