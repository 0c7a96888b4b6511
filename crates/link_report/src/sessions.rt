//! The sessions of an end.
ghost use Rattle.std.specs.Prelude.{◌≡◌, ◌==◌, false};
ghost use Rattle.std.specs.List.{list_any};

use tcp_endpoint::Endpoint;

/// The live session of an end.
#[derive(Drop)]
pub struct Live {
    pub(crate) endpoint: Endpoint,
    /// Whether a take showed the end of its stream.
    pub(crate) end_shown: bool,
}

/// What the report says of a session that another one replaced.
#[derive(Clone, Copy, Debug, PartialEq, Eq)]
pub struct Ended {
    pub isn: u32,
    /// The peer's initial sequence number, where it became known.
    pub peer_isn: Option<u32>,
    /// How many bytes were given to it.
    pub given: u64,
    /// How many bytes were taken from it.
    pub delivered: u64,
    /// Whether a take showed the end of its stream.
    pub end_shown: bool,
}

impl Live {
    ghost use Rattle.book_link.specs.Worlds.{Session};
    ghost use Rattle.link_report.specs.Sides.{endpoint_of, facts_of, is_end_shown, kept_facts};
    ghost use Rattle.tcp_endpoint.specs.Ends.{Stands};

    /// A session that begins: no take showed the end of its stream.
    pub(crate) fn begun(endpoint: Endpoint) -> Live
        ensures { result ≡ record { endpoint = endpoint; end_shown = false } }
    {
        Live {
            endpoint,
            end_shown: false,
        }
    }

    /// The end of the connection.
    pub fn endpoint(&self) -> &Endpoint
        ensures { result.now ≡ endpoint_of self.now }
    {
        &self.endpoint
    }

    /// Whether a take showed the end of the stream.
    pub fn end_shown(&self) -> bool
        ensures { result ≡ is_end_shown self.now }
    {
        self.end_shown
    }

    /// What the report says of the session beside its phase.
    pub fn ended(&self) -> Ended
        ensures { (s : Session) → Stands (endpoint_of self.now) s.state → is_end_shown self.now ≡ s.end_shown
            → kept_facts result ≡ facts_of s }
    {
        Ended {
            isn: self.endpoint.isn(),
            peer_isn: self.endpoint.peer_isn(),
            given: self.endpoint.given(),
            delivered: self.endpoint.delivered(),
            end_shown: self.end_shown,
        }
    }
}

/// Whether one of these has the initial sequence number.
pub(crate) fn has_isn(dropped: &[Ended], isn: u32) -> bool
    ensures { result ≡ list_any (λ d. d.isn == isn) dropped.now }
{
    dropped.iter().any(|ended| ended.isn == isn)
}
