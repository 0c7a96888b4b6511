//! Tests of the top call where it is disturbed, of checks whose input or output fails, and of links with timers and
//! with messages of BGP, by public calls that lend what they leave: readers and timers. A module tests the crate
//! whose name it has. Whole runs stand in the examples: there they run as the built program does them, and aren't
//! proved a second time.
#![tactic(auto)]

#[cfg(test)]
mod of_ao_run;
#[cfg(test)]
mod of_cmd_bgp;
#[cfg(test)]
mod of_cmd_check;
#[cfg(test)]
mod of_cmd_timed;
