//! The lines in front of a link file: its title and the sockets of its two ends.
ghost use Rattle.std.specs.Prelude.{◌≡◌, [], ◌∷◌, codes, IfOk, IfErr};
ghost use Rattle.book_lines.specs.declared.line_kind.LineKind.TheVariants as line_kind;
ghost use Rattle.book_lines.specs.declared.text_fault.TextFault.TheVariants as fault;
ghost use Rattle.book_cmd_link.specs.LinkFiles.{title_of, socket_of, peer_socket_of, line_in, link_head_in};
ghost use Rattle.law_scripts.specs.Left.{leaves};
ghost use Rattle.link_script.specs.Heads.{said_head};

use ao_base::are_two_of_a_family;
use book_base::Socket;
use book_lines::{LineKind, TextFault};
use text_lines::{LineWords, Saying, SayingLines};

/// The sockets of a link's two ends, whose addresses differ and are of one family.
#[derive(Drop)]
pub(crate) struct Head {
    pub a: Socket,
    pub b: Socket,
}

/// The next line that says something; where it is missing, a fault of this kind at the number after
/// all lines.
pub(crate) fn next_line<'a>(
    lines: &mut SayingLines<'a>,
    missing: u32,
    kind: LineKind,
) -> Result<Saying<'a>, TextFault>
    ensures next { IfOk result (λ line. lines.old ≡ record { number = line.number; words = line.words } ∷ lines.new) }
    ensures none { IfErr result (λ e. (lines.old ≡ []) × (e ≡ fault.Line missing kind)) }
{
    lines.next().ok_or(TextFault::Line(missing, kind))
}

#[tactic(auto, unfolding(book_cmd_link::specs::LinkFiles::title_of))]
fn title(words: &mut LineWords) -> Result<(), LineKind>
    ensures { result ≡ title_of (codes "aotcp-link") words.old }
{
    words.literal(b"aotcp-link")?;
    words.literal(b"1")?;
    words.nothing()
}

#[tactic(auto, unfolding(book_cmd_link::specs::LinkFiles::socket_of))]
fn socket(name: &[u8], words: &mut LineWords) -> Result<Socket, LineKind>
    ensures { result ≡ socket_of name.now words.old }
{
    words.literal(name)?;
    let socket = words.socket()?;
    words.nothing()?;
    Ok(socket)
}

#[tactic(auto, unfolding(book_cmd_link::specs::LinkFiles::peer_socket_of))]
fn peer(a: &Socket, words: &mut LineWords) -> Result<Socket, LineKind>
    ensures { result ≡ peer_socket_of a.now words.old }
{
    let b = socket(b"b", words)?;
    if are_two_of_a_family(&a.address, &b.address) {
        Ok(b)
    } else {
        Err(LineKind::Word)
    }
}

/// The first line that says something.
#[tactic(auto, unfolding(book_cmd_link::specs::LinkFiles::line_in))]
fn title_line(lines: &mut SayingLines, missing: u32) -> Result<(), TextFault>
    ensures { leaves result lines.new ≡ line_in missing line_kind.Header (title_of (codes "aotcp-link")) lines.old }
{
    let mut line = next_line(lines, missing, LineKind::Header)?;
    title(&mut line.words).map_err(|_| TextFault::Line(line.number, LineKind::Header))
}

/// The line of a's socket.
#[tactic(auto, unfolding(book_cmd_link::specs::LinkFiles::line_in))]
fn socket_line(lines: &mut SayingLines, missing: u32) -> Result<Socket, TextFault>
    ensures { leaves result lines.new ≡ line_in missing line_kind.Header (socket_of (codes "a")) lines.old }
{
    let mut line = next_line(lines, missing, LineKind::Header)?;
    socket(b"a", &mut line.words).map_err(|_| TextFault::Line(line.number, LineKind::Header))
}

/// The line of b's socket, beside a's.
#[tactic(auto, unfolding(book_cmd_link::specs::LinkFiles::line_in))]
fn peer_line(lines: &mut SayingLines, missing: u32, a: &Socket) -> Result<Socket, TextFault>
    ensures { leaves result lines.new ≡ line_in missing line_kind.Header (peer_socket_of a.now) lines.old }
{
    let mut line = next_line(lines, missing, LineKind::Header)?;
    peer(a, &mut line.words).map_err(|_| TextFault::Line(line.number, LineKind::Header))
}

/// The three lines in front: the title, the socket of a and that of b.
///
/// `Line` is the first faulty one of them, with the kind `Header`; one that is missing has the
/// number `missing`, that after all lines. No more is said of the lines that are left after a fault.
#[tactic(auto, unfolding(book_cmd_link::specs::LinkFiles::link_head_in))]
pub(crate) fn read_head(lines: &mut SayingLines, missing: u32) -> Result<Head, TextFault>
    ensures { leaves (said_head result) lines.new ≡ link_head_in missing lines.old }
{
    title_line(lines, missing)?;
    let a = socket_line(lines, missing)?;
    let b = peer_line(lines, missing, &a)?;
    Ok(Head { a, b })
}
