//! Stacks and shims for programs in C: the calls of `ao_stack::CountedStack` and of `shim_pairs::Shim` over a
//! handle that a C program holds, with numbers for their answers. No call has a condition on its numbers: what a C
//! program may get wrong is tested, and answered by a code. `include/aotcp.h` declares them.
#![tactic(auto)]

mod answers;
mod calls;
mod codes;
mod counters;
mod datagrams;
mod faults;
mod handle;
mod key_file;
mod loose;
mod numbers;
mod open;
mod pairs;
mod receive;
mod rows;
mod shapes;
mod shim_calls;
mod shim_counters;
mod shim_handle;
mod shim_keys;
mod shim_notices;
mod shim_numbers;
mod shim_saved;
mod shim_shapes;
mod shims;
mod stacks;
mod status;
