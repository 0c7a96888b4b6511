//! Tests of keys and MACs, by public calls that no command makes so: hashes in pieces, keys that are kept, sealing,
//! the check of a segment, choices and plans. A module tests the crate whose name it has. Vectors of the RFCs and
//! of other programs, and the faults of key files, stand in the examples: there they run as the built program does
//! them, and aren't proved a second time.
#![tactic(auto)]

#[cfg(test)]
mod of_ao_check;
#[cfg(test)]
mod of_ao_kdf;
#[cfg(test)]
mod of_ao_mac;
#[cfg(test)]
mod of_hmac_sha1;
#[cfg(test)]
mod of_key_coordination;
#[cfg(test)]
mod of_key_plan;
#[cfg(test)]
mod of_key_table;
