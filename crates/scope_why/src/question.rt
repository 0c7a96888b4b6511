//! What is asked for.

/// What is asked of a packet: by the document that the key file is, and with the traffic key or without it.
#[derive(Clone, Copy)]
pub(crate) struct Question<'a> {
    pub(crate) document: &'a toml::Table,
    pub(crate) with_key: bool,
}
