//! The commands of the program.
use book_cmd_link::Plan;

/// What the program is asked to do.
#[derive(Clone, Copy, Debug, PartialEq, Eq)]
pub enum Command {
    /// Run a link file that names the key that both ends share.
    Link,
    /// Run a link file over the tables of a key file.
    LinkKeys,
    /// Judge stored segments, given as lines.
    Check,
    /// Judge stored segments, given as a pcap file.
    CheckPcap,
    /// Show datagrams.
    Show,
    /// Check test vectors.
    Vectors,
    /// Show the rows of a key file with their state at a time.
    Keys(u64),
    /// Judge a key file.
    Lint(Plan),
    /// Run so many events that are made from a seed.
    Storm(u64, u32),
    /// Run a link file, and read what was delivered as BGP messages.
    Bgp,
    /// Run a link file with retransmission timers.
    Timed,
    /// Run many connections at one node.
    Node,
}
