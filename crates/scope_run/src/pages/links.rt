//! The pages of the words that run link files.

/// The page of `draw`.
pub(super) const DRAW: &str = "\
Draws the run of a link file as a ladder between its two ends

Usage: aoscope draw [OPTIONS] [KEYS]

Arguments:
  [KEYS]  The key file

Options:
  -r <FILE>   The link file, instead of standard input
      --svg   Draw the ladder as a picture in SVG
  -h, --help  Print help

The link file, as for `aotcp link`, is read from standard input; KEYS is a key file, and is left out if the link \
file names the key. Each end is a vertical line, with its clock, calls, phases and answers beside it. A segment is \
an arrow with its number in the report of `aotcp link`, its flags, the key that it is under and the key that it \
asks for. An arrow that ends in X was lost: it is never delivered. A segment that arrives as soon as it is sent \
takes one line; otherwise its arrow leaves on one line and arrives on a later one, which tells whether it had \
arrived before (again) and whether a later one had (late). The stroke is ~ for an altered copy, and = for an \
injected datagram.

With --svg the ladder is a picture for a browser: an arrow from where a segment is sent to where it arrives, in the \
colour of its KeyID. Segments that are lost, that arrive again, that were altered and that were injected have \
strokes of their own, and each arrow has a title with all that is written beside it.

Exit status: 0, drawn; 3, faulty key file; the others as in `aoscope --help`.

    aoscope draw KEYS < LINKFILE
    aoscope draw --svg KEYS < LINKFILE > PICTURE.svg
";

/// The page of `echo`.
pub(super) const ECHO: &str = "\
Writes the report of a link file's run with the line of each event beside it

Usage: aoscope echo [OPTIONS] [KEYS]

Arguments:
  [KEYS]  The key file

Options:
  -r <FILE>   The link file, instead of standard input
  -h, --help  Print help

The link file, as for `aotcp link`, is read from standard input; KEYS is a key file, and is left out if the link \
file names the key. The output is the report of `aotcp link`, with the number and the text of each event's line in \
front of its own, and an arrow between them. After an event that sets a clock comes a line with the time that it \
shows. The lines of the sessions and the counts follow unchanged.

Exit status: 0, done; 1, a forgery is counted; 3, faulty key file; the others as in `aoscope --help`.

    aoscope echo KEYS < LINKFILE
";
