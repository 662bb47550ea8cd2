//! What a line of a schedule of hellos contains.
use crate::event::Line;
use wire_base::HelloEvent;

/// A line of a schedule whose interfaces come up and go down by hellos (RFC 5303).
#[derive(Drop)]
pub enum HandLine {
    /// A line of a schedule. Its event is neither [`Event::Up`](crate::Event::Up) nor [`Event::Down`](crate::Event::Down).
    Base(Line),
    /// One event of hellos. It is neither [`HelloEvent::Tick`] nor [`HelloEvent::Restart`]: a line `tick` or `restart` is a line of
    /// a schedule.
    Hello(HelloEvent),
}
