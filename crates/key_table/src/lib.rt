//! The key file that an operator edits, in the manner of RFC 7210: the tables of the nodes, the
//! rows of each with their lifetimes, and the look-ups by which a row is chosen; rows that are added
//! to a table in use, and withdrawn. Reading is by the walk that `tables_of` defines; look-ups take
//! no memory.
#![tactic(auto)]

mod columns;
mod document;
mod gap;
mod ids;
mod master_key;
mod mirror;
mod new_row;
mod nodes;
mod overlap;
mod peers;
mod ports;
mod protocol;
mod read;
mod row;
mod rows;
mod table;
mod tables;
mod terms;
mod time;
mod want;

pub use book_keys::{
    Accept, AddRefusal, Column, Direction, LATEST, Lifetime, MOST_KEYS, NewRow, NoRow, TableFault,
};
pub use columns::{is_word_at, member_at, text_at};
pub use document::{Unread, read_document};
pub use gap::first_gap;
pub use ids::{id_at, is_admin_at};
pub use mirror::mirrored;
pub use nodes::is_visible;
pub use peers::peer_of;
pub use ports::port_at;
pub use protocol::{is_everywhere, kdf_at, options_at};
pub use read::{read_tables, tables_in};
pub use row::{Row, fits_port, has_peer};
pub use rows::ROW_KEYS;
pub use table::Table;
pub use tables::Tables;
pub use terms::{direction_at, time_at};
pub use time::read_time;
