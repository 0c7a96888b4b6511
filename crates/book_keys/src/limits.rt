//! How much a key file, a table and a row may hold: the numbers of the definitions, for code.

/// The most bytes of a key file: 2^20.
pub const MOST_KEYS: u64 = 1_048_576;

/// The most nodes of a key file.
pub const NODE_LIMIT: usize = 16;

/// The most rows of a table.
pub const ROW_LIMIT: usize = 64;

/// The most peers that a row names.
pub const PEER_LIMIT: usize = 16;

/// The greatest KeyID (RFC 5925, section 2.2).
pub const GREATEST_KEY_ID: u64 = 255;

/// The most bytes of a master key.
pub const LONGEST_MASTER_KEY: usize = 255;

/// The most bytes of an AdminKeyName.
pub const LONGEST_ADMIN_NAME: usize = 255;

/// The most bytes of the name of a node.
pub const LONGEST_NODE_NAME: usize = 64;
