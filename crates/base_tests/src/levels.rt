//! Orders by the longest walk that leads to a node.

use graph_check::GraphFault;
use graph_levels::level_order;

#[test]
fn longest_walks_order_nodes(rt: HostRuntime) -> Result<(), GraphFault> {
    // The levels are 0, 2, 1, 0, 3: node 4 has a short way past node 1, and counts the long one.
    let found = level_order(rt.alloc(), 5, &[(0, 2), (2, 1), (1, 4), (3, 4), (3, 1)])?;
    assert!(rt; found.as_slice() == [0, 3, 2, 1, 4].as_slice());
    Ok(())
}

#[test]
fn numbers_order_nodes_of_one_level(rt: HostRuntime) -> Result<(), GraphFault> {
    let found = level_order(rt.alloc(), 4, &[])?;
    assert!(rt; found.as_slice() == [0, 1, 2, 3].as_slice());

    let found = level_order(rt.alloc(), 0, &[])?;
    assert!(rt; found.is_empty());
    Ok(())
}

#[test]
fn closed_walk_is_found(rt: HostRuntime) -> Result<(), GraphFault> {
    let cycle = level_order(rt.alloc(), 3, &[(0, 1), (1, 2), (2, 1)]);
    assert!(rt; matches!(&cycle, Err(GraphFault::Cycle(walk)) if walk.len() == 2));
    Ok(())
}
