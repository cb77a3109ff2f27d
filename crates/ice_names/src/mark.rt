//! The marks of slots.
ghost use Rattle.std.specs.Prelude.{◌≡◌};
ghost use Rattle.ice_names.specs.Names.{says_offline};

/// What a row of the cube table says of its slot.
#[derive(Clone, Copy, Debug, PartialEq, Eq)]
pub enum Mark {
    /// No cube stands in the slot.
    Free,
    /// A cube stands there.
    Online,
    /// A cube stands there, and is offline.
    Offline,
}

impl Mark {
    pub(crate) fn is_offline(self) -> bool
        ensures { result ≡ says_offline self }
    {
        match self {
            Mark::Offline => true,
            Mark::Free | Mark::Online => false,
        }
    }
}
