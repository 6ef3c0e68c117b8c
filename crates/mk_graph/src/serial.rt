//! The serial order of a graph on numbers, found by one walk with a stack of its own.
ghost use Rattle.std.specs.Prelude.{◌≡◌, ◌++◌, ◌<◌, ℕ, map, [], reverse, length, nat_eq, IfOk, OnOk, IsTrue};
ghost use Rattle.mk_name.specs.Names.{has};
ghost use Rattle.mk_graph.specs.Rows.{row, InRange};
ghost use Rattle.mk_graph.specs.Walk.{IsWalked};
ghost use Rattle.mk_graph.specs.declared.serial.Step.TheVariants.{Enter};
ghost use Rattle.mk_graph.specs.Steps.{ring_to};

use std::alloc::{AllocError, Global};

/// How far the walk is with a node.
#[derive(Clone, Copy, Debug)]
enum Mark {
    Fresh,
    Open,
    Done,
}

/// What the walk has still to do.
#[derive(Clone, Copy, Debug)]
enum Step {
    /// To do all that a node needs, and then the node.
    Enter(usize),
    /// To do the node: all that it needs is done by then.
    Leave(usize),
}

/// What a walk finds.
#[derive(Debug, Drop)]
pub enum Walked {
    /// The serial order.
    Order(Vec<usize>),
    /// Nodes each of which needs the next, and the last the first.
    Ring(Vec<usize>),
}

/// Puts the nodes on the stack, the first on top.
fn enter_all(stack: &mut Vec<Step>, nodes: &[usize]) -> Result<(), AllocError>
    ensures { OnOk result
        (reverse stack.new.items ≡ map Enter nodes.now ++ reverse stack.old.items) }
{
    for place in (0..nodes.len()).rev() {
        stack.push(Step::Enter(nodes[place]))?;
    }
    Ok(())
}

/// The nodes that the walk has entered and not left, from one of them to the last.
fn ring_of(alloc: Global, mut stack: Vec<Step>, back: usize) -> Result<Vec<usize>, AllocError>
    ensures { IfOk result (λ ring. ring.items ≡ ring_to back [] (reverse stack.items)) }
{
    let mut ring = Vec::new(alloc);
    while let Some(step) = stack.pop() {
        if let Step::Leave(node) = step {
            ring.push(node)?;
            if node == back {
                break;
            }
        }
    }
    ring.reverse();
    Ok(ring)
}

/// The serial order of all that the goals need, or a ring of nodes that need one another. A node's row has the numbers
/// of its prerequisites. The only error is out of memory.
pub fn serial_order(
    alloc: Global,
    graph: &[Vec<usize>],
    goals: &[usize],
) -> Result<Walked, AllocError>
    requires range { InRange graph.now }
    requires goals { (goal : ℕ) → IsTrue (has nat_eq goals.now goal) → goal < length graph.now }
    ensures { IfOk result (IsWalked (row graph.now) goals.now) }
{
    let mut marks = vec![in alloc; Mark::Fresh; graph.len()]?;
    let mut order = Vec::new(alloc);
    let mut stack = Vec::new(alloc);
    enter_all(&mut stack, goals)?;
    'walk: while let Some(step) = stack.pop() {
        match step {
            Step::Leave(node) => {
                marks[node] = Mark::Done;
                order.push(node)?;
            }
            Step::Enter(node) => match marks[node] {
                Mark::Done => {}
                Mark::Open => return Ok(Walked::Ring(ring_of(alloc, stack, node)?)),
                Mark::Fresh => {
                    marks[node] = Mark::Open;
                    stack.push(Step::Leave(node))?;
                    enter_all(&mut stack, graph[node].as_slice())?;
                }
            },
        }
    }
    Ok(Walked::Order(order))
}
