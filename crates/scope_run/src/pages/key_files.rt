//! The pages of the words that judge key files and plans.

/// The page of `keys`.
pub(super) const KEYS: &str = "\
Lists everything that is wrong with a key file, with the place and what is wanted there

Usage: aoscope keys <KEYS>

Arguments:
  <KEYS>  The key file

Options:
  -h, --help  Print help

Each fault gets a line: the place in the file, the field and whose it is, its value, and what is wanted. All faults \
of all nodes and rows are listed, in the order of the nodes, their rows and the columns; an unknown field comes \
with the known one that looks like it. If no field is faulty, the first two rows that overlap are named. If the \
file isn't TOML, the line tells from where on, and why. The place is given only if each header and each field \
begins a line of its own, as in the examples. A master key is never shown: of a value at Key only the type and the \
length are.

If `aotcp` takes the file and it has a node, the only line is `no faults: N nodes, N rows`.

Exit status: 0, no faults; 1, faults, or no node; 3, the file is too long; 5, it can't be read; the others as in \
`aoscope --help`.

    aoscope keys KEYS
";

/// The page of `plan`.
pub(super) const PLAN: &str = "\
Checks a planned key rollover for each connection, and says what to change

Usage: aoscope plan [OPTIONS] <KEYS> <LEAD> <LAG> <FROM> <TO>

Arguments:
  <KEYS>  The key file
  <LEAD>  By how much a receiver's clock may be behind
  <LAG>   By how much a receiver's clock may be ahead
  <FROM>  Start of the time that is checked
  <TO>    End of the time that is checked, included

Options:
      --draw  Draw in bars when each row is used
      --svg   Draw the bars as a picture in SVG
  -r <FILE>   The file of connections, instead of standard input
  -h, --help  Print help

KEYS is a key file. LEAD and LAG are by how much a receiver's clock may be behind and ahead: seconds, or with a \
unit, as in 90s, 10m, 2h, 1d. FROM and TO are the times between which the plan is checked, as 2026-12-31T23:55:00Z \
or 20261231235500Z. Each line of standard input is a connection, ADDRESS PORT ADDRESS PORT; empty lines and lines \
that begin with # are skipped.

For each connection there is first its calendar, a line for each time between FROM and TO at which a row begins or \
ends to be accepted or sent with, or begins to be asked for; then each row that the other end doesn't take, with \
the columns in which the nearest row differs or the lifetime to set; then each gap, in which a node has no row to \
send with. If nothing is wrong, a line says aligned, and up to which LEAD and LAG it stays so. If neither end \
begins to send with another row in this time, a line says that no key changes. A line that begins with note: points \
out what may hold but is worth a look: a key that never ends, is short, was used before or ends in a line feed, and \
times of one end that are all later by the same whole hours.

With --draw the plan is drawn in bars: one for each row that may send between FROM and TO, and below it one for \
each row of the other end that accepts its id. A column is # if the row does so in each of its seconds, and + if in \
some of them. Below, ! marks each column in which a row may send that the other end doesn't take, or a node has no \
row to send with. With two connections or more, the first line tells how many are aligned.

With --draw --svg the bars are one picture for a browser, with dates, each bar to the second and in the colour of \
its KeyID, filled if the row sends and white if it accepts; a triangle means that it goes on before FROM or after \
TO. A black box below marks the seconds of each finding. Titles give the whole lifetime of a row and the times of a \
finding.

Exit status: 0, every plan is aligned and changes a key; 1, one isn't or doesn't, no node has an address, or there \
is no connection or no node; 2, usage, also if FROM is after TO; 3, faulty key file; the others as in `aoscope \
--help`.

    aoscope plan KEYS 60 60 2026-12-01T00:00:00Z 2027-02-01T00:00:00Z < CONNECTIONS
    aoscope plan --draw --svg KEYS 60 60 2026-12-01T00:00:00Z 2027-02-01T00:00:00Z < CONNECTIONS > PICTURE.svg
";
