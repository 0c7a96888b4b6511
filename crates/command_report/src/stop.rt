//! A command that made no report.
ghost use Rattle.std.specs.Prelude.{◌≡◌};
ghost use Rattle.command_report.specs.Reports.{stop_of};
ghost use Rattle.command_report.specs.declared.stop.Stop.TheVariants.{Memory};

use book_lines::TextFault;
use std::alloc::AllocError;

/// Why a command made no report.
#[derive(Debug, Drop)]
pub enum Stop {
    /// The input isn't in the command's grammar; with its first fault.
    Input(TextFault),
    /// The plain run of a link with waits has more events than one may have.
    TooManyEvents,
    /// Memory ran out.
    Memory,
}

impl From<AllocError> for Stop {
    ghost from_gives = { λ _ stop. stop ≡ Memory };

    fn from(_error: AllocError) -> Stop {
        Stop::Memory
    }
}

impl From<TextFault> for Stop {
    ghost from_gives = { λ fault stop. stop ≡ stop_of fault };

    fn from(fault: TextFault) -> Stop {
        match fault {
            TextFault::Memory => Stop::Memory,
            _ => Stop::Input(fault),
        }
    }
}
