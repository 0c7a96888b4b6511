//! Why packets are passed over, in words, and the lines of these packets.
ghost use Rattle.std.specs.Prelude.{◌≡◌, ◌++◌, OnOk};
ghost use Rattle.std.specs.List.{flat_map};
ghost use Rattle.book_sessions.specs.OutcomeTexts.{passed_text};
ghost use Rattle.book_sessions.specs.SessionTexts.{passed_line};

use ao_base::push_decimal;
use book_sessions::{PassedCount, PassedOver};
use scope_lines::push_reason;
use segment_words::push_fault_text;
use std::alloc::AllocError;
use text_lines::push_newline;

/// Puts why a packet is passed over behind `out`. Where memory runs out a part of it may stand there.
pub fn push_passed(out: &mut Vec<u8>, why: PassedOver) -> Result<(), AllocError>
    ensures { OnOk result (out.new.items ≡ out.old.items ++ passed_text why) }
{
    match why {
        PassedOver::NoDatagram(why) => push_reason(out, why),
        PassedOver::NoTime => out.extend_from_slice(b"no time"),
        PassedOver::Faulty(fault) => push_fault_text(out, fault),
    }
}

fn push_count(out: &mut Vec<u8>, count: &PassedCount) -> Result<(), AllocError>
    ensures { OnOk result (out.new.items ≡ out.old.items ++ passed_line count.now) }
{
    out.extend_from_slice(b"other ")?;
    push_decimal(out, count.packets)?;
    out.push(b' ')?;
    push_passed(out, count.why)?;
    push_newline(out)
}

/// Puts the lines of packets that are passed over behind `out`.
pub(crate) fn push_counts(out: &mut Vec<u8>, passed: &[PassedCount]) -> Result<(), AllocError>
    ensures { OnOk result (out.new.items ≡ out.old.items ++ flat_map passed_line passed.now) }
{
    for count in passed {
        push_count(out, count)?;
    }
    Ok(())
}
