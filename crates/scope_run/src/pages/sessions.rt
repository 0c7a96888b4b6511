//! The page of the word that judges sessions of a capture.

/// The page of `sessions`.
pub(super) const SESSIONS: &str = "\
Shows which key each session of a capture used, and which keys can be removed

Usage: aoscope sessions [OPTIONS] <KEYS>

Arguments:
  <KEYS>  The key file

Options:
      --draw <N>             Draw session N as a ladder instead of the table
      --from <TIME>          Leave out segments that were seen before TIME
      --to <TIME>            Leave out segments that were seen after TIME
      --svg                  Draw the ladder as a picture in SVG
      --isn <FILE>           Initial sequence numbers of sessions that began before the capture
  -r <FILE>                  The capture file, instead of standard input
      --retire <NAME|KEYID>  Only show whether the keys with this name or KeyID may go
      --all                  List foreign sessions too
      --json                 Write the table as one line of JSON
      --every <N>            Also write a table every N of the capture's own time
      --laps <N>             Try up to N laps of 4 GiB more, 0 to 255, if a MAC is wrong; default 0
  -h, --help                 Print help

KEYS is a key file; the capture is read from standard input, or from the file that -r names. Each session gets a \
line with its sockets, and one for the segments of each direction under each KeyID: those that are verified, and \
those that aren't, by reason. In place of a key and its KeyID stands md5 for segments with TCP MD5 only, and plain \
for segments with neither. Each key of the file gets a line: its name, who used it last, whether a peer asks for \
it, and whether it can be removed (`may go`): yes only if all peers that may use it were seen to do without it and \
have another key to send with. Sessions that are foreign to the key file, with no address of one of its nodes and \
no TCP-AO, are only counted; --all lists them too.

With --retire WORD only the lines of keys whose AdminKeyName is WORD, or that send or accept with KeyID WORD (0 to \
255), are written, with what stands in the way of removing them. Exit status: 0, all of them may go, as far as the \
capture shows; 1, at least one may not, or it isn't known; 2, there is no such key.

FILE gives the initial sequence numbers of sessions that began before the capture. Each line is ADDRESS PORT ISN \
ADDRESS PORT ISN, each number after the socket that chose it; empty lines and lines that begin with # are skipped. \
The capture is judged as if it began with these sessions' handshakes, one after another.

If no handshake is verified, a segment is judged by the initial sequence numbers that a SYN with ACK showed, or a \
SYN and the first ACK after it. A segment that passes this way is unconfirmed: its MAC is right, but nothing \
verified shows that the session began with these numbers. One that fails is named unconfirmed- and the reason, as \
in unconfirmed-bad-mac: it may be forged, or the session may be older.

A MAC covers 64-bit sequence numbers, and a segment carries the lower 32 bits. If a session had sent more than 4 \
GiB in a direction before the capture, the upper half isn't the one that its initial sequence numbers give. With \
--laps N a segment whose MAC is wrong, or whose number would be below 0, is tried with up to N laps of 4 GiB more, \
the fewest first; each try costs a MAC. The laps that are found hold for what follows.

With --json the table is one line of JSON: an object with the members packets, foreign, sessions, keys and amiss. \
Times are RFC 3339 strings in UTC. A KeyID that isn't there, a key that was never used, one that nobody asks for, \
and an unknown `may_go` are null.

With --every N a table is also written while the capture is read: before the first packet that was seen N or more \
after the last table (or after the first packet), and followed by a line with that packet's time. N is in seconds, \
or has a unit, as in 90s, 10m, 2h. A JSON table is a line, and has no line after it.

With --draw N session N is drawn instead, as a ladder between its two sockets, like `aoscope draw` draws a link: an \
arrow for each segment, with its flags, the key that it is under, the key that it asks for, its time at the sender, \
and the verdict at the receiver. The stroke is ~ if the segment isn't verified, and dotted if it is unconfirmed. \
Exit status: 0, drawn; 1, there is no session N; the others as below.

With --draw N --svg the ladder is a picture for a browser: each arrow has the colour of its KeyID and a title with \
its time to the nanosecond, its sequence number and its acknowledgement. Long dashes mean that a segment isn't \
verified, short dashes that it is unconfirmed. The picture is written at the end of the capture; until then its \
segments are kept in memory.

With --from TIME and --to TIME only the segments of session N that were seen from the one time to the other, both \
included, are drawn; all segments of the capture are judged. TIME is written as 2026-12-31T23:55:00Z or \
20261231235500Z. The last lines tell how many segments before and after were left out. Exit status: 0, drawn, even \
if all segments are left out; 2, also if FROM is after TO.

Exit status: 0, all segments of sessions that aren't foreign are verified; 1, one isn't, there is no such session, \
or a packet that can't be read may be a segment; 3, faulty key file; 4, faulty capture or FILE; the others as in \
`aoscope --help`.

    aoscope sessions KEYS < CAPTURE
    aoscope sessions KEYS -r CAPTURE
    aoscope sessions KEYS --isn FILE < CAPTURE
    aoscope sessions KEYS --isn FILE --laps 8 < CAPTURE
    aoscope sessions KEYS --retire 2026 < CAPTURE
    aoscope sessions KEYS --all < CAPTURE
    aoscope sessions KEYS --json < CAPTURE
    aoscope sessions KEYS --draw 1 < CAPTURE
    aoscope sessions KEYS --draw 1 --svg < CAPTURE > PICTURE.svg
    aoscope sessions KEYS --draw 1 --from 2026-12-31T23:55:00Z --to 2027-01-01T00:05:00Z < CAPTURE
    tcpdump -i IFACE -s 0 -U -w - 'tcp port 179' | aoscope sessions KEYS --every 10s
";
