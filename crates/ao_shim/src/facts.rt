//! What is asked of a datagram of the own kernel before it is sealed.
ghost use Rattle.std.specs.Prelude.{◌≡◌, ◌+◌, ◌≤◌, ◌^◌, Option, Some, None, IfSome, option_map, nat_le};
ghost use Rattle.std.specs.List.{list_any};
ghost use Rattle.book_segments.specs.Options.{plains, listed, options_of};
ghost use Rattle.book_segments.specs.Segments.{segment_length};
ghost use Rattle.book_macs.specs.Contexts.{bytes_of, context_of};
ghost use Rattle.book_endpoint.specs.Verdicts.{segment_number};
ghost use Rattle.book_shim.specs.Leaving.{signs as option_signs};
ghost use Rattle.tcp_segment.specs.Views.{view_opt};

use ao_kdf::Context;
use tcp_segment::{AO_KIND, Datagram, Flag, Opt, Options, extend};

/// The kind of TCP MD5 (RFC 2385, section 3.0).
const MD5_KIND: u8 = 19;

/// Whether an option is of TCP-AO or of TCP MD5.
fn signs(option: Opt<'_>) -> bool
    ensures { result ≡ option_signs (view_opt option.entry) }
{
    option.kind == AO_KIND || option.kind == MD5_KIND
}

/// Whether some option is of TCP-AO or of TCP MD5.
pub(crate) fn is_signed(options: &Options<'_>) -> bool
    ensures { result ≡ list_any option_signs (plains (listed (options_of options.now))) }
{
    for option in options.iter() {
        if signs(option) {
            return true;
        }
    }
    false
}

/// The context with these initial sequence numbers.
fn between(datagram: &Datagram<'_>, source_isn: u32, dest_isn: u32) -> Context
    ensures { result
        ≡ record {
          source = datagram.now.source;
          destination = datagram.now.destination;
          source_isn = source_isn;
          dest_isn = dest_isn;
        } }
{
    Context {
        source: datagram.source(),
        destination: datagram.destination(),
        source_isn,
        dest_isn,
    }
}

/// The context of a segment, from the initial sequence numbers of its source and its destination as
/// far as they are known (RFC 5925, section 5.2).
#[tactic(auto, unfolding(book_macs::specs::Contexts::context_of))]
pub(crate) fn context_for(
    datagram: &Datagram<'_>,
    source_isn: Option<u32>,
    dest_isn: Option<u32>,
) -> Option<Context>
    ensures { option_map bytes_of result ≡ context_of datagram.now source_isn dest_isn }
{
    if datagram.has(Flag::Syn) {
        if !datagram.has(Flag::Ack) {
            return Some(between(datagram, datagram.sequence(), 0));
        }
        return Some(between(datagram, datagram.sequence(), dest_isn?));
    }
    Some(between(datagram, source_isn?, dest_isn?))
}

/// The number of a segment: with SYN its sequence, else what that means near the number after the
/// greatest that was sent (RFC 5925, section 6.2).
pub(crate) fn number_of(datagram: &Datagram<'_>, sent: u64) -> Option<u64>
    requires { sent ≤ 2 ^ 63 }
    ensures number { result ≡ segment_number datagram.now (Some sent) }
    ensures most { IfSome result (λ n. n ≤ 2 ^ 63 + 2 ^ 32) }
{
    if datagram.has(Flag::Syn) {
        Some(u64::from(datagram.sequence()))
    } else {
        extend(datagram.sequence(), sent)
    }
}

/// Whether a segment of this number ends at 2^63 at the latest.
pub(crate) fn ends_in_time(datagram: &Datagram<'_>, number: u64) -> bool
    requires { number ≤ 2 ^ 63 + 2 ^ 32 }
    ensures { result ≡ nat_le (number + segment_length datagram.now) (2 ^ 63) }
{
    number + datagram.segment_length() <= 1 << 63
}
