//! What an end answers to an arrival.
ghost use Rattle.std.specs.Prelude.{◌≡◌, None};

use ao_check::Passing;
use book_endpoint::Arrival;

/// The answer to an arrival, and what the check found.
#[derive(Clone, Copy, Debug)]
pub struct Arrived<'a> {
    /// The first answer that holds.
    pub arrival: Arrival,
    /// The row, the number and the context of the segment, and the TCP-AO option that was found in it;
    /// there exactly where the check passed it.
    pub passed: Option<Passing<'a>>,
}

impl<'a> Arrived<'a> {
    /// Nothing passed.
    pub(crate) fn without(arrival: Arrival) -> Arrived<'a>
        ensures { result ≡ record { arrival = arrival; passed = None } }
    {
        Arrived {
            arrival,
            passed: None,
        }
    }
}
