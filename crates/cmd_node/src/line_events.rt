//! The events of a node, each read from the words of its line.
ghost use Rattle.std.specs.Prelude.{◌≡◌};
ghost use Rattle.text_lines.specs.Readings.{Tells, gives};
ghost use Rattle.book_cmd_node.specs.declared.node.Act.TheVariants as acts;
ghost use Rattle.book_cmd_link.specs.LinkEvents.{greatest_isn};
ghost use Rattle.book_cmd_node.specs.NodeRuns.{act_alone, act_give, act_number, act_start, clock_of, node_inject_of};
ghost use Rattle.book_cmd_node.specs.NodeRuns.{node_event_named, node_event_of, pair_in};
ghost use Rattle.cmd_node.specs.Names.{name_text};

use crate::name::Name;
use ao_base::are_two_of_a_family;
use book_base::{Address, Pair, Socket};
use book_cmd_node::{Act, NodeEvent};
use book_keys::LATEST;
use book_lines::LineKind;
use book_pcap::LONGEST_DATAGRAM;
use std::alloc::Global;
use text_lines::{LineWords, WordProblem};

/// The sockets of a connection: the port at the node, and the other end's address and port.
fn pair(own: &Address, words: &mut LineWords) -> Result<Pair, LineKind>
    ensures { gives result words.new ≡ pair_in own.now words.old }
{
    let local = words.short()?;
    let address = words.address()?;
    if !are_two_of_a_family(own, &address) {
        return Err(LineKind::Range);
    }
    let port = words.short()?;
    Ok(Pair {
        local: Socket {
            address: *own,
            port: local,
        },
        remote: Socket { address, port },
    })
}

/// A connection to which this happens, and nothing else.
fn alone(own: &Address, words: &mut LineWords, act: Act) -> Result<NodeEvent, LineKind>
    ensures { result ≡ act_alone act own.now words.old }
{
    let pair = pair(own, words)?;
    words.nothing()?;
    Ok(NodeEvent::On(pair, act))
}

fn open(own: &Address, words: &mut LineWords) -> Result<NodeEvent, LineKind>
    ensures { result ≡ act_number acts.Open greatest_isn own.now words.old }
{
    let pair = pair(own, words)?;
    let isn = words.long()?;
    words.nothing()?;
    Ok(NodeEvent::On(pair, Act::Open(isn)))
}

fn listen(own: &Address, words: &mut LineWords) -> Result<NodeEvent, LineKind>
    ensures { result ≡ act_number acts.Listen greatest_isn own.now words.old }
{
    let pair = pair(own, words)?;
    let isn = words.long()?;
    words.nothing()?;
    Ok(NodeEvent::On(pair, Act::Listen(isn)))
}

fn start(own: &Address, words: &mut LineWords) -> Result<NodeEvent, LineKind>
    ensures { result ≡ act_start own.now words.old }
{
    let pair = pair(own, words)?;
    let isn = words.long()?;
    let peer = words.long()?;
    words.nothing()?;
    Ok(NodeEvent::On(pair, Act::Start(isn, peer)))
}

fn give(alloc: Global, own: &Address, words: &mut LineWords) -> Result<NodeEvent, WordProblem>
    ensures { Tells result (act_give own.now words.old) }
{
    let pair = pair(own, words)?;
    let bytes = words.some_hex(alloc)?;
    words.nothing()?;
    Ok(NodeEvent::On(pair, Act::Give(bytes)))
}

fn take(own: &Address, words: &mut LineWords) -> Result<NodeEvent, LineKind>
    ensures { result ≡ act_number acts.Take 65535 own.now words.old }
{
    let pair = pair(own, words)?;
    let count = words.short()?;
    words.nothing()?;
    Ok(NodeEvent::On(pair, Act::Take(count)))
}

fn clock(words: &mut LineWords) -> Result<NodeEvent, LineKind>
    ensures { result ≡ clock_of words.old }
{
    let seconds = words.number(0, LATEST)?;
    words.nothing()?;
    Ok(NodeEvent::Clock(seconds))
}

fn inject(alloc: Global, words: &mut LineWords) -> Result<NodeEvent, WordProblem>
    ensures { Tells result (node_inject_of words.old) }
{
    let bytes = words.sized_hex(alloc, 1, LONGEST_DATAGRAM)?;
    words.nothing()?;
    Ok(NodeEvent::Inject(bytes))
}

/// The event that the name and the words after it make.
#[tactic(auto, unfolding(book_cmd_node::specs::NodeRuns::node_event_named))]
fn named(
    alloc: Global,
    own: &Address,
    name: Name,
    words: &mut LineWords,
) -> Result<NodeEvent, WordProblem>
    ensures { Tells result (node_event_named own.now (name_text name) words.old) }
{
    match name {
        Name::Clock => Ok(clock(words)?),
        Name::Inject => inject(alloc, words),
        Name::Open => Ok(open(own, words)?),
        Name::Listen => Ok(listen(own, words)?),
        Name::Start => Ok(start(own, words)?),
        Name::Give => give(alloc, own, words),
        Name::Take => Ok(take(own, words)?),
        Name::Send => Ok(alone(own, words, Act::Send)?),
        Name::Resend => Ok(alone(own, words, Act::Resend)?),
        Name::Close => Ok(alone(own, words, Act::Close)?),
        Name::Abort => Ok(alone(own, words, Act::Abort)?),
        Name::Remove => Ok(alone(own, words, Act::Remove)?),
    }
}

/// The event of a node with this address that the words of a line make.
#[tactic(auto, unfolding(book_cmd_node::specs::NodeRuns::node_event_of), using(crate::proofs::NameLaws::named_or_not))]
pub(crate) fn read_event(
    alloc: Global,
    own: &Address,
    words: &mut LineWords,
) -> Result<NodeEvent, WordProblem>
    ensures { Tells result (node_event_of own.now words.old) }
{
    let name = Name::read(words.word()?).ok_or(LineKind::Word)?;
    named(alloc, own, name, words)
}
