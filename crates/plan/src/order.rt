//! The earlier of two events.

ghost use Rattle.std.specs.Prelude.{◌≡◌};
ghost use Rattle.surf_kinds.specs.Keys.{earlier as earlier_of};

use surf_kinds::Event;

/// The event of the lesser key; of equal keys, the first event.
#[inline]
pub(crate) fn earlier(a: Option<Event>, b: Option<Event>) -> Option<Event>
    ensures { result ≡ earlier_of a b }
{
    match (a, b) {
        (None, _) => b,
        (Some(_), None) => a,
        (Some(x), Some(y)) => if y.key().is_before(x.key()) { b } else { a },
    }
}
