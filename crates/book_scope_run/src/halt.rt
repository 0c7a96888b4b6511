//! Why a run ends early.
use book_captures::CaptureFault;
use book_keys::TableFault;
use book_lines::LineKind;

/// An argument by the name that its page of help gives it.
#[derive(Clone, Copy, Debug, PartialEq, Eq)]
pub enum Argument {
    Lead,
    Lag,
    From,
    To,
    N,
}

/// What is wanted of an argument.
#[derive(Clone, Copy, Debug, PartialEq, Eq)]
pub enum Wanted {
    LengthOfTime,
    Time,
    /// A number of laps, 0 to 255.
    Laps,
    SessionNumber,
    /// A number of a packet, from 1.
    PacketNumber,
}

/// Arguments that are each what is wanted, and can't be taken together, or so far.
#[derive(Clone, Copy, Debug, PartialEq, Eq)]
pub enum Misuse {
    /// LEAD is longer than the last time of a key file.
    LongLead,
    /// LAG is longer than the last time of a key file.
    LongLag,
    FromAfterTo,
    /// `--draw` beside what is asked of a table.
    DrawAndTable,
    /// `--retire` beside what is asked of a table or a ladder.
    RetireAndMore,
}

/// From where bytes are read.
#[derive(Clone, Copy, Debug, PartialEq, Eq)]
pub enum Origin {
    /// The key file.
    KeyFile,
    /// The file of initial sequence numbers.
    IsnFile,
    /// Standard input, or the file in its place.
    Input,
}

/// Why a run ends early.
#[derive(Clone, Copy, Debug, PartialEq, Eq)]
pub enum Halt {
    /// The words can't be taken so.
    Misused(Misuse),
    /// The text of this argument isn't what is wanted there.
    IsNo(Argument, Wanted),
    /// No row has the AdminKeyName or KeyID that `--retire` names.
    NoSuchKey,
    /// No session of the capture has this number; how many there are.
    NoSession(u64, u64),
    /// The key file has no node.
    NoNode,
    /// The input names no connection.
    NoConnection,
    /// The key file is refused.
    Keys(TableFault),
    /// This line of the initial sequence numbers is faulty, and the kind of its first faulty word.
    IsnLine(u32, LineKind),
    /// More than 20,000 lines of initial sequence numbers.
    TooManyIsns,
    /// The capture is faulty here.
    Broken(CaptureFault),
    /// This line of the input is faulty, and the kind of its first faulty word.
    InputLine(u32, LineKind),
    /// More than 20,000 lines of input.
    TooManyLines,
    /// More events than a run may have.
    TooManyEvents,
    /// More bytes than may come from there.
    TooLong(Origin),
    /// A read from there failed.
    Read(Origin),
    /// A write failed.
    Write,
    /// Memory ran out.
    Memory,
}
