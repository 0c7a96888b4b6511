//! Master keys.
ghost use Rattle.book_keys.specs.MasterKeys.{IsMasterKey};

/// A master key that a row keeps. It is printed nowhere.
#[derive(Drop)]
pub(crate) struct MasterKey {
    pub(crate) bytes: Vec<u8>,
    ghost is_key: { IsMasterKey bytes.items },
}
