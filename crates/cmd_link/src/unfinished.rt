//! Why a run of a link with timers stops.
ghost use Rattle.std.specs.Prelude.{◌≡◌};
ghost use Rattle.cmd_link.specs.declared.unfinished.Unfinished.TheVariants.{Memory};

use std::alloc::AllocError;

/// Why a run of a link with timers stops before its last event.
#[derive(Drop)]
pub(crate) enum Unfinished {
    /// Memory ran out.
    Memory(AllocError),
    /// The plain run has too many events.
    TooMany,
}

impl From<AllocError> for Unfinished {
    ghost from_gives = { λ error stop. stop ≡ Memory error };

    fn from(error: AllocError) -> Unfinished {
        Unfinished::Memory(error)
    }
}
