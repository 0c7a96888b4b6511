//! The text of a key file's fault.
ghost use Rattle.std.specs.Prelude.{◌≡◌, IfOk};
ghost use Rattle.book_cmd_link.specs.KeyTexts.{table_fault_line};
ghost use Rattle.book_answer.specs.Answers.{refusal};
ghost use Rattle.ao_run.specs.Stops.{Stopped};

use crate::stop::Stop;
use book_base::Bytes;
use command_report::push_key_fault;
use key_table::TableFault;
use std::alloc::{AllocError, Global};

fn print_fault(alloc: Global, fault: TableFault) -> Result<Bytes, AllocError>
    ensures { IfOk result (λ text. text ≡ table_fault_line fault) }
{
    let mut text = Vec::new(alloc);
    push_key_fault(&mut text, fault)?;
    Ok(Bytes::from_vec(text))
}

/// Why a key file with this fault has no output.
pub(crate) fn stop_of(alloc: Global, fault: TableFault) -> Stop
    ensures text { Stopped result (refusal 3 (table_fault_line fault)) }
    ensures memory { fault ≡ TableFault.Memory → result ≡ Stop.Memory }
{
    match fault {
        TableFault::Memory => Stop::Memory,
        _ => match print_fault(alloc, fault) {
            Ok(text) => Stop::Keys(text),
            Err(_) => Stop::Memory,
        },
    }
}
