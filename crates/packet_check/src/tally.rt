//! How many packets count as what.
ghost use Rattle.std.specs.Prelude.{◌≡◌, ◌+◌, ◌++◌, ◌∷◌, ◌||◌, [], IfOk, List, OnOk, codes, decimal, if◌then◌else◌};
ghost use Rattle.book_lines.specs.Texts.{spaced};
ghost use Rattle.book_sessions.specs.declared.class.PacketClass.{PacketClass};
ghost use Rattle.book_sessions.specs.CheckedLines.{are_amiss, is_amiss_class, is_foreign_class, is_other_class};
ghost use Rattle.book_sessions.specs.CheckedLines.{is_passing_class, is_refused_class, total_line};
ghost use Rattle.packet_check.specs.Tallies.{Tallies};

use crate::class::is_foreign;
use ao_base::push_decimal;
use book_sessions::PacketClass;
use std::alloc::AllocError;
use text_lines::{push_field, push_newline};

/// How many packets count as what, and whether one of them is amiss.
#[derive(Clone, Copy)]
pub(crate) struct Tally {
    pub(crate) passing: u64,
    pub(crate) refused: u64,
    pub(crate) foreign: u64,
    pub(crate) others: u64,
    pub(crate) amiss: bool,
}

fn is_passing(class: PacketClass) -> bool
    ensures { result ≡ is_passing_class class }
{
    matches!(class, PacketClass::Passes)
}

fn is_refused(class: PacketClass) -> bool
    ensures { result ≡ is_refused_class class }
{
    matches!(class, PacketClass::Refused)
}

fn is_other(class: PacketClass) -> bool
    ensures { result ≡ is_other_class class }
{
    matches!(class, PacketClass::Other | PacketClass::Doubtful)
}

fn is_amiss_class(class: PacketClass) -> bool
    ensures { result ≡ is_amiss_class class }
{
    matches!(class, PacketClass::Refused | PacketClass::Doubtful)
}

fn is_either(one: bool, other: bool) -> bool
    ensures { result ≡ (one || other) }
{
    one || other
}

// The count with one more, if it counts. An error where 2^64 - 1 are counted.
fn one_more(count: u64, counts: bool) -> Result<u64, AllocError>
    ensures { IfOk result (λ n. n ≡ (if counts then count + 1 else count)) }
{
    if !counts {
        return Ok(count);
    }
    count.checked_add(1).ok_or(AllocError)
}

// The sum of two counts. An error where it is more than 2^64 - 1.
fn sum_of(one: u64, other: u64) -> Result<u64, AllocError>
    ensures { IfOk result (λ n. n ≡ one + other) }
{
    one.checked_add(other).ok_or(AllocError)
}

impl Tally {
    /// The tally of no packets.
    pub(crate) fn new() -> Tally
        ensures { Tallies result [] }
    {
        Tally {
            passing: 0,
            refused: 0,
            foreign: 0,
            others: 0,
            amiss: false,
        }
    }

    /// The tally with one more packet, which counts as this. An error where 2^64 - 1 packets count as one thing.
    pub(crate) fn with(self, class: PacketClass) -> Result<Tally, AllocError>
        ensures { (classes : List PacketClass) → Tallies self classes
            → IfOk result (λ t. Tallies t (classes ++ class ∷ [])) }
    {
        let passing = one_more(self.passing, is_passing(class))?;
        let refused = one_more(self.refused, is_refused(class))?;
        let foreign = one_more(self.foreign, is_foreign(class))?;
        let others = one_more(self.others, is_other(class))?;
        let amiss = is_either(self.amiss, is_amiss_class(class));
        Ok(Tally {
            passing,
            refused,
            foreign,
            others,
            amiss,
        })
    }

    // How many packets there are. An error where they are more than 2^64 - 1.
    fn packets(self) -> Result<u64, AllocError>
        ensures { IfOk result (λ n. n ≡ self.passing + self.refused + self.foreign + self.others) }
    {
        let segments = sum_of(self.passing, self.refused)?;
        sum_of(sum_of(segments, self.foreign)?, self.others)
    }

    /// Puts the last line behind `out`. An error for want of memory, or where there are more than 2^64 - 1
    /// packets; then a part of it may stand there.
    pub(crate) fn push_total(self, out: &mut Vec<u8>) -> Result<(), AllocError>
        ensures { (classes : List PacketClass) → Tallies self classes
            → OnOk result (out.new.items ≡ out.old.items ++ total_line classes) }
    {
        let packets = self.packets()?;
        out.extend_from_slice(b"packets ")?;
        push_decimal(out, packets)?;
        push_field(out, b"pass", self.passing)?;
        push_field(out, b"refused", self.refused)?;
        push_field(out, b"foreign", self.foreign)?;
        push_field(out, b"other", self.others)?;
        push_newline(out)
    }

    /// Whether something is amiss: a packet is, or none passes.
    pub(crate) fn is_amiss(self) -> bool
        ensures { (classes : List PacketClass) → Tallies self classes → result ≡ are_amiss classes }
    {
        is_either(self.amiss, self.passing == 0)
    }
}
