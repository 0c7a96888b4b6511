//! A node of fewer ends than that of a command has.
ghost use Rattle.book_base.specs.Addresses.{IsOneFamily};

use book_base::{Address, Pair, Socket};
use key_table::Table;
use stack_ends::{Node, NodeRefusal};
use std::alloc::{AllocError, Global};
use std::test::Fail;

const NODE: Address = Address::V4([10, 0, 0, 1]);

const FAR: Address = Address::V4([10, 0, 0, 2]);

/// The pair with this port at the node.
fn pair(port: u16) -> Pair
    ensures { IsOneFamily result.local.address result.remote.address }
{
    Pair {
        local: Socket {
            address: NODE,
            port,
        },
        remote: Socket {
            address: FAR,
            port: 2000,
        },
    }
}

// Each call with long clauses stands in a function without any, so that the proof of a test has none of
// them before it.
fn start(alloc: Global, node: &mut Node, port: u16) -> Result<(), NodeRefusal> {
    node.start(alloc, &Table::empty(alloc, NODE), pair(port), 100, 200)
}

fn listen(alloc: Global, node: &mut Node, port: u16) -> Result<(), NodeRefusal> {
    node.listen(alloc, &Table::empty(alloc, NODE), pair(port), 100)
}

fn connect(alloc: Global, node: &mut Node, port: u16) -> Result<(), NodeRefusal> {
    node.connect(alloc, &Table::empty(alloc, NODE), pair(port), 100)
}

fn remove(node: &mut Node, port: u16) -> bool {
    node.remove(&pair(port))
}

fn of_one_end(alloc: Global) -> Result<Node, AllocError> {
    Node::new(alloc, 1)
}

#[test]
fn a_node_of_one_end(rt: HostRuntime) -> Result<(), Fail> {
    let mut node = of_one_end(rt.alloc())?;
    assert!(rt; start(rt.alloc(), &mut node, 1) == Ok(()));
    assert!(rt; listen(rt.alloc(), &mut node, 1) == Err(NodeRefusal::InUse));
    assert!(rt; connect(rt.alloc(), &mut node, 2) == Err(NodeRefusal::Full));
    assert!(rt; remove(&mut node, 1));
    assert!(rt; connect(rt.alloc(), &mut node, 2) == Ok(()));
    Ok(())
}
