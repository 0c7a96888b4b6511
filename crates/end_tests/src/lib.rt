//! Tests of ends and what holds them, by public calls that no command makes so: a node that is full, a
//! retransmission timer, two stacks that talk, a link's log and its files. A module tests the crate whose name it
//! has. Connections and the segments that they write stand in the examples of `link` and `node`: there they run
//! as the built program does them, and aren't proved a second time.
#![tactic(auto)]

#[cfg(test)]
mod of_ao_stack;
#[cfg(test)]
mod of_link_log;
#[cfg(test)]
mod of_link_script;
#[cfg(test)]
mod of_node_ends;
#[cfg(test)]
mod of_rto_timer;
#[cfg(test)]
mod peers;
#[cfg(test)]
mod way;
