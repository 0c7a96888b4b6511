//! What is known when a segment is answered.
use book_sessions::GivenIsns;
use capture_check::KnownConnection;
use tcp_segment::Datagram;

/// What is known when a segment is answered: the document that the key file is, whether the traffic key is
/// asked for, the initial sequence numbers that were told or given, those of the connection that is held, when
/// the segment was seen, in seconds since 1970, and the segment.
#[derive(Clone, Copy)]
pub(crate) struct Facts<'a> {
    pub(crate) document: &'a toml::Table,
    pub(crate) with_key: bool,
    pub(crate) told: &'a [GivenIsns],
    pub(crate) known: Option<KnownConnection>,
    pub(crate) time: u64,
    pub(crate) datagram: &'a Datagram<'a>,
}
