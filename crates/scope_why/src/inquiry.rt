//! What an answer speaks of.
use book_why::IsnPair;
use capture_check::KnownConnection;
use key_table::Table;
use tcp_segment::Datagram;

/// What an answer speaks of: the segment, when it was seen, in seconds since 1970, what is known of its
/// connection seen from its source, the tables of the node that it goes to and of the one that it comes from,
/// if that is one, the initial sequence numbers of other connections on its sockets, the document that the key
/// file is, and whether the traffic key is asked for.
#[derive(Clone, Copy)]
pub(crate) struct Inquiry<'a> {
    pub(crate) table: &'a Table,
    pub(crate) sender: Option<&'a Table>,
    pub(crate) known: Option<KnownConnection>,
    pub(crate) time: u64,
    pub(crate) datagram: &'a Datagram<'a>,
    pub(crate) others: &'a [IsnPair],
    pub(crate) document: &'a toml::Table,
    pub(crate) with_key: bool,
}
