//! The pages of the words that judge packets of a capture.

/// The page of `check`.
pub(super) const CHECK: &str = "\
Checks each packet of a capture against a key file, as its receiver would

Usage: aoscope check [OPTIONS] <KEYS>

Arguments:
  <KEYS>  The key file

Options:
      --isn <FILE>  Initial sequence numbers of sessions that began before the capture
  -r <FILE>         The capture file, instead of standard input
      --all         List foreign segments too
  -h, --help        Print help

Each packet gets a line as soon as it is read: its number, time, source and destination with ports, the KeyID and \
RNextKeyID that it carries (- without TCP-AO), and the verdict, in the words of `aotcp check`. The last line counts \
the packets.

A segment is foreign if neither address belongs to a node of the key file and it carries no TCP-AO option. Foreign \
segments are only counted; --all lists them too.

FILE gives the initial sequence numbers of sessions that began before the capture, as for `aoscope sessions`.

Exit status: 0, every segment that isn't foreign passes, and there is at least one; 1, one doesn't pass, none does, \
or a packet that can't be read may be a segment; 3, faulty key file; 4, faulty capture or FILE; the others as in \
`aoscope --help`.

    aoscope check KEYS < CAPTURE
    aoscope check KEYS -r CAPTURE --isn FILE
    tcpdump -i IFACE -s 0 -U -w - 'tcp port 179' | aoscope check KEYS
";

/// The page of `why`.
pub(super) const WHY: &str = "\
Explains the verdict on one packet of a capture

Usage: aoscope why [OPTIONS] <KEYS> <N>

Arguments:
  <KEYS>  The key file
  <N>     The packet's number in the capture, from 1

Options:
      --isn <FILE>  Initial sequence numbers of sessions that began before the capture
  -r <FILE>         The capture file, instead of standard input
      --keys        Show the traffic key too; it is a secret
  -h, --help        Print help

KEYS is a key file; the capture is read from standard input, or from the file that -r names, as far as packet N, \
counted from 1. The first line shows the packet's time, sockets and fields, the second the verdict of the check. \
The other lines show what decided it: the row that takes the segment, or what each row of the node lacks to take \
it; the initial sequence numbers and the sequence number that were used; and the MAC's input, part by part. If the \
MAC is wrong, each single mistake of a sender that would give exactly this MAC is named: another row or flag, \
another form of the key, sockets or initial sequence numbers exchanged, and more.

FILE gives the initial sequence numbers of sessions that began before the capture, as for `aoscope sessions`.

With --keys the traffic key is shown too. It is a secret: whoever has it can sign segments of this connection.

Exit status: 0, the packet passes; 1, it doesn't, or there is no packet N; 2, also if N is no number from 1; 3, \
faulty key file; 4, faulty FILE, or a faulty capture before packet N; the others as in `aoscope --help`.

    aoscope why KEYS N < CAPTURE
    aoscope why KEYS N -r CAPTURE
    aoscope why KEYS N --isn FILE < CAPTURE
    aoscope why KEYS N --keys < CAPTURE
";
