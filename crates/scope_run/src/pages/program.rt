//! The page of the program, and of the word that converts captures.

/// The program's page.
pub(super) const PROGRAM: &str = "\
Answers an operator's questions about TCP-AO: captures, key files, planned rollovers

Usage: aoscope <COMMAND>

Commands:
  lines     Converts a capture to lines that `aotcp check` reads, one for each packet
  check     Checks each packet of a capture against a key file, as its receiver would
  sessions  Shows which key each session of a capture used, and which keys can be removed
  why       Explains the verdict on one packet of a capture
  keys      Lists everything that is wrong with a key file, with the place and what is wanted there
  plan      Checks a planned key rollover for each connection, and says what to change
  draw      Draws the run of a link file as a ladder between its two ends
  echo      Writes the report of a link file's run with the line of each event beside it
  help      Print this message or the help of the given subcommand(s)

Options:
  -h, --help     Print help
  -V, --version  Print version

Captures are pcap or pcapng files of any link type that is in use: Ethernet, Linux cooked, raw IP, loopback, with \
VLAN tags, PPPoE and MPLS.

Exit status: 0, done; 1, done, and something is wrong; 2, usage; 3, faulty key file; 4, faulty input; 5, a read \
failed; 6, a write failed; 7, out of memory.
";

/// The page of `lines`.
pub(super) const LINES: &str = "\
Converts a capture to lines that `aotcp check` reads, one for each packet

Usage: aoscope lines [OPTIONS]

Options:
  -r <FILE>   The capture file, instead of standard input
  -h, --help  Print help

Each packet with an IP datagram becomes a line with its time, in seconds since 1970, and the datagram in \
hexadecimal. Any other packet becomes a line `# packet N REASON`. `aotcp check` skips such a line but counts it, so \
its line numbers are packet numbers.

    aoscope lines < CAPTURE | aotcp check KEYS
    aoscope lines -r CAPTURE | aotcp check KEYS
";
