//! What the texts of the words write, or why they are refused.
ghost use Rattle.std.specs.Prelude.{◌≡◌, option_map};
ghost use Rattle.book_base.specs.Results.{or_fault};
ghost use Rattle.book_scope_run.specs.Words.{bound_asked, drawn_alone, every_asked, few_laps, from_one, laps_asked};
ghost use Rattle.book_scope_run.specs.Words.{length_by, numbered_packet, plan_allowed, plan_asked, retired_alone};
ghost use Rattle.book_scope_run.specs.Words.{session_asked, time_allowed, time_by, within_asked};
ghost use Rattle.book_base.specs.Decimals.{decimal_of};

use ao_base::read_decimal;
use book_cmd_link::Plan;
use book_draw::DrawnTime;
use book_scope_run::{Argument, Halt, Misuse, Wanted};
use key_table::LATEST;
use scope_texts::{read_duration, read_instant};

/// The most laps that are searched.
const MOST_LAPS: u64 = 255;

fn length_by(name: Argument, text: &[u8]) -> Result<u64, Halt>
    ensures { result ≡ length_by name text.now }
{
    match read_duration(text) {
        Some(length) => Ok(length),
        None => Err(Halt::IsNo(name, Wanted::LengthOfTime)),
    }
}

fn time_by(name: Argument, text: &[u8]) -> Result<u64, Halt>
    ensures { result ≡ time_by name text.now }
{
    match read_instant(text) {
        Some(time) => Ok(time),
        None => Err(Halt::IsNo(name, Wanted::Time)),
    }
}

fn plan_allowed(plan: Plan) -> Result<Plan, Halt>
    ensures { result ≡ plan_allowed plan }
{
    if plan.lead > LATEST {
        Err(Halt::Misused(Misuse::LongLead))
    } else if plan.lag > LATEST {
        Err(Halt::Misused(Misuse::LongLag))
    } else if plan.from > plan.to {
        Err(Halt::Misused(Misuse::FromAfterTo))
    } else {
        Ok(plan)
    }
}

/// By how much clocks may be behind and ahead, and between which times the plan is looked at.
pub(crate) fn plan_asked(lead: &[u8], lag: &[u8], from: &[u8], to: &[u8]) -> Result<Plan, Halt>
    ensures { result ≡ plan_asked lead.now lag.now from.now to.now }
{
    let lead = length_by(Argument::Lead, lead)?;
    let lag = length_by(Argument::Lag, lag)?;
    let from = time_by(Argument::From, from)?;
    let to = time_by(Argument::To, to)?;
    plan_allowed(Plan {
        lead,
        lag,
        from,
        to,
    })
}

/// After how many seconds the next table is due, if the words say it.
pub(crate) fn every_asked(text: Option<&[u8]>) -> Result<Option<u64>, Halt>
    ensures { result ≡ every_asked (option_map (λ t. t.now) text.entry) }
{
    match text {
        None => Ok(None),
        Some(text) => {
            let every = length_by(Argument::N, text)?;
            Ok(Some(every))
        }
    }
}

fn few_laps(laps: Option<u64>) -> Option<u32>
    ensures { result ≡ few_laps laps }
{
    match laps {
        Some(laps) => {
            if laps <= MOST_LAPS {
                Some(laps as u32)
            } else {
                None
            }
        }
        None => None,
    }
}

/// Over how many laps is searched.
pub(crate) fn laps_asked(text: Option<&[u8]>) -> Result<u32, Halt>
    ensures { result ≡ laps_asked (option_map (λ t. t.now) text.entry) }
{
    match text {
        None => Ok(0),
        Some(text) => match few_laps(read_decimal(text)) {
            Some(laps) => Ok(laps),
            None => Err(Halt::IsNo(Argument::N, Wanted::Laps)),
        },
    }
}

/// The number of a session that is drawn.
pub(crate) fn session_asked(text: &[u8]) -> Result<u64, Halt>
    ensures { result ≡ session_asked text.now }
{
    match read_decimal(text) {
        Some(number) => Ok(number),
        None => Err(Halt::IsNo(Argument::N, Wanted::SessionNumber)),
    }
}

fn from_one(number: Option<u64>) -> Option<u64>
    ensures { result ≡ from_one number }
{
    match number {
        Some(number) => { if number > 0 { Some(number) } else { None } }
        None => None,
    }
}

/// The number of the packet that is asked for.
pub(crate) fn numbered_packet(text: &[u8]) -> Result<u64, Halt>
    ensures { result ≡ numbered_packet text.now }
{
    match from_one(read_decimal(text)) {
        Some(number) => Ok(number),
        None => Err(Halt::IsNo(Argument::N, Wanted::PacketNumber)),
    }
}

fn bound_asked(name: Argument, none: u64, text: Option<&[u8]>) -> Result<u64, Halt>
    ensures { result ≡ bound_asked name none (option_map (λ t. t.now) text.entry) }
{
    match text {
        None => Ok(none),
        Some(text) => time_by(name, text),
    }
}

fn time_allowed(within: DrawnTime) -> Result<DrawnTime, Halt>
    ensures { result ≡ time_allowed within }
{
    if within.from > within.to {
        Err(Halt::Misused(Misuse::FromAfterTo))
    } else {
        Ok(within)
    }
}

/// Within which time segments are drawn.
pub(crate) fn within_asked(from: Option<&[u8]>, to: Option<&[u8]>) -> Result<DrawnTime, Halt>
    ensures { result ≡ within_asked (option_map (λ t. t.now) from.entry) (option_map (λ t. t.now) to.entry) }
{
    let from = bound_asked(Argument::From, 0, from)?;
    let to = bound_asked(Argument::To, u64::MAX, to)?;
    time_allowed(DrawnTime { from, to })
}

/// A ladder is drawn beside nothing that is asked of a table.
pub(crate) fn drawn_alone(json: bool, every: bool, all: bool) -> Result<(), Halt>
    ensures { result ≡ drawn_alone json every all }
{
    if json || every || all {
        Err(Halt::Misused(Misuse::DrawAndTable))
    } else {
        Ok(())
    }
}

/// It is said which keys may go beside nothing that is asked of a table or a ladder.
pub(crate) fn retired_alone(json: bool, all: bool, every: bool, draw: bool) -> Result<(), Halt>
    ensures { result ≡ retired_alone json all every draw }
{
    if json || all || every || draw {
        Err(Halt::Misused(Misuse::RetireAndMore))
    } else {
        Ok(())
    }
}
