//! How a segment is protected, by its options.
ghost use Rattle.std.specs.Prelude.{◌≡◌};
ghost use Rattle.book_segments.specs.Options.{find_ao};
ghost use Rattle.book_sessions.specs.Sessions.{carries_md5, protection_of};

use book_sessions::Protection;
use tcp_segment::{AoFound, Datagram};

/// The option kind of TCP MD5 (RFC 2385, section 3.0).
const MD5_KIND: u8 = 19;

// Whether one of the options is of TCP MD5.
fn carries_md5(datagram: &Datagram<'_>) -> bool
    ensures { result ≡ carries_md5 datagram.now.area }
{
    for option in datagram.options().iter() {
        if option.kind == MD5_KIND {
            return true;
        }
    }
    false
}

/// How a segment is protected: by one TCP-AO option, by TCP MD5, or by neither; or it isn't clear.
pub(crate) fn protection_of(datagram: &Datagram<'_>) -> Protection
    ensures { result ≡ protection_of datagram.now.area }
{
    match datagram.options().find_ao() {
        AoFound::One(_) => Protection::Ao,
        AoFound::Two => Protection::Unclear,
        AoFound::WithMd5 => Protection::Unclear,
        AoFound::Absent => {
            if carries_md5(datagram) {
                Protection::Md5
            } else {
                Protection::Plain
            }
        }
    }
}
