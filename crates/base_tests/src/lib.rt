//! Tests of what every crate speaks of, of lines, of buffers and of what is on the wire, by public calls. A module
//! tests the crate whose name it has. They stand apart from it, since a crate that has tests is proved twice.
//! `text_lines` has none: each line that a command reads or writes goes through it, and so does each folder of
//! `examples/`.
#![tactic(auto)]

#[cfg(test)]
mod of_ao_base;
#[cfg(test)]
mod of_ao_base_memory;
#[cfg(test)]
mod of_bgp_messages;
#[cfg(test)]
mod of_capture_reader;
#[cfg(test)]
mod of_line_reader;
#[cfg(test)]
mod of_shim_icmp;
#[cfg(test)]
mod of_slot_list;
#[cfg(test)]
mod of_stream_buffers;
#[cfg(test)]
mod of_tcp_options;
#[cfg(test)]
mod of_tcp_segment;
#[cfg(test)]
mod of_wrap_seq;
