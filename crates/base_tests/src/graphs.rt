//! Orders, cycles, components and what leads to a node.

use graph_check::{GraphFault, components, cyclic_edges, order, reaching};

/// Two cycles with a bridge between them, and a node that lies on its own edge alone.
const TWO_CYCLES: [(u32, u32); 9] = [
    (0, 1),
    (1, 0),
    (1, 2),
    (2, 3),
    (3, 4),
    (4, 2),
    (5, 5),
    (4, 5),
    (5, 6),
];

#[test]
fn edges_lead_from_earlier_nodes_to_later_ones(rt: HostRuntime) -> Result<(), GraphFault> {
    let found = order(rt.alloc(), 4, &[(2, 0), (0, 3), (3, 1), (2, 1)])?;
    assert!(rt; found.as_slice() == [2, 0, 3, 1].as_slice());
    Ok(())
}

#[test]
fn a_cycle_is_found(rt: HostRuntime) -> Result<(), GraphFault> {
    let cycle = order(rt.alloc(), 4, &[(0, 1), (1, 2), (2, 1), (2, 3)]);
    assert!(rt; matches!(&cycle, Err(GraphFault::Cycle(walk)) if walk.len() == 2));
    Ok(())
}

#[test]
fn nodes_that_lead_to_one(rt: HostRuntime) -> Result<(), GraphFault> {
    let seen = reaching(rt.alloc(), 4, &[(0, 1), (1, 2), (2, 1), (2, 3)], 2)?;
    assert!(rt; seen.as_slice() == [true, true, true, false].as_slice());
    Ok(())
}

#[test]
fn nodes_of_a_cycle_are_one_component(rt: HostRuntime) -> Result<(), GraphFault> {
    let numbers = components(rt.alloc(), 7, &TWO_CYCLES)?;
    assert!(rt; numbers.as_slice() == [0, 0, 1, 1, 1, 2, 3].as_slice());
    Ok(())
}

#[test]
fn edges_of_cycles_alone_are_cyclic(rt: HostRuntime) -> Result<(), GraphFault> {
    let cyclic = cyclic_edges(rt.alloc(), 7, &TWO_CYCLES)?;
    let expected = [true, true, false, true, true, true, true, false, false];
    assert!(rt; cyclic.as_slice() == expected.as_slice());
    Ok(())
}
