//! The two texts that the program tells of itself.
ghost use Rattle.std.specs.Prelude.{◌≡◌};
ghost use Rattle.aotcp.specs.OwnTexts.{asked_alone, asked_by, is_help, text_of};

use book_base::Words;

const HELP: &[u8] = b"usage: aotcp link [KEYS] | check KEYS | show | vectors | keys KEYS TIME | \
lint KEYS LEAD LAG FROM TO | storm SEED COUNT | check --pcap KEYS | bgp KEYS | timed KEYS | node KEYS

link reads a link file on standard input and writes the report of its run.
show reads datagrams in hexadecimal, one a line, and writes their fields.
vectors reads test vectors and writes whether each is as computed.
check reads stored segments, with --pcap those of a pcap file, and writes what the tables of KEYS say of each.
keys writes the rows of the key file KEYS with their state at TIME.
lint reads connections and writes whether the tables of KEYS carry each through its rollovers.
storm writes the summary of a run of COUNT events that is made from the number SEED.
bgp reads a link file and writes the BGP messages that its sessions delivered.
timed reads a link file with waits and writes the report of its run with timers.
node reads a node's file and writes the answers of its run.
Status 0: done; 1: done, with something amiss; 2: usage; 3: key file; 4: input;
5: a read failed; 6: a write failed; 7: out of memory.
";

/// Whether the word asks for help, behind a command too.
fn is_help(word: &[u8]) -> bool
    ensures { result ≡ is_help word.now }
{
    word == b"--help".as_slice() || word == b"-h".as_slice()
}

/// What a word that stands alone asks for.
fn asked_alone(word: &[u8]) -> Option<OwnText>
    ensures { result ≡ asked_alone word.now }
{
    if is_help(word) || word == b"help".as_slice() {
        Some(OwnText::Help)
    } else if word == b"--version".as_slice() || word == b"-V".as_slice() {
        Some(OwnText::Version)
    } else {
        None
    }
}

/// What the words may ask of the program itself.
#[derive(Clone, Copy)]
pub(crate) enum OwnText {
    Help,
    Version,
}

impl OwnText {
    /// What the words ask for; None where they ask nothing of the program itself.
    pub(crate) fn asked(words: &Words) -> Option<OwnText>
        ensures { result ≡ asked_by words.now }
    {
        match words.as_slice() {
            [word] => asked_alone(word.as_slice()),
            [_, word] if is_help(word.as_slice()) => Some(OwnText::Help),
            _ => None,
        }
    }

    /// The text.
    pub(crate) fn bytes(self) -> &'static [u8]
        ensures { result.now ≡ text_of self }
    {
        match self {
            OwnText::Help => HELP,
            OwnText::Version => b"aotcp 0.2.0\n",
        }
    }
}
