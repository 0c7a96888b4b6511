//! Tests of captures as lines and of key files, by public calls. A module tests the crate whose name it has. They
//! stand apart from it, since a crate that has tests is proved twice.
#![tactic(auto)]

#[cfg(test)]
mod checks;
#[cfg(test)]
mod files;
#[cfg(test)]
mod of_capture_stream;
#[cfg(test)]
mod of_key_file;
#[cfg(test)]
mod of_packet_check;
#[cfg(test)]
mod of_scope_lines;
