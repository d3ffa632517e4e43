//! Messages.

ghost use Rattle.std.specs.Prelude.{◌≡◌};
ghost use Rattle.border.specs.Messages.{op_key};

use surf_kinds::{Event, Key};

/// What a region tells another one.
#[derive(Clone, Copy, Debug, PartialEq, Eq)]
pub enum Op {
    /// This event stands, and none that was told with its key or a greater one.
    Put(Event),
    /// No event that was told with this key or a greater one stands.
    Back(Key),
}

impl Op {
    /// The key from which on the message cuts a stack: that of its event, or the one that it names.
    #[inline]
    pub fn key(&self) -> Key
        ensures { result ≡ op_key self.now }
    {
        match self {
            Op::Put(event) => event.key(),
            Op::Back(key) => *key,
        }
    }
}
