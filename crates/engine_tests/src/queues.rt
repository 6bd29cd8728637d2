//! Messages come out as they went in.
use flow_model::{List, Message, Path};
use recover_queue::Queues;
use std::alloc::{AllocError, Global};
use std::test::Fail;

fn begin(alloc: Global, root: u64) -> Message {
    let parts = List::new(alloc);
    Message::Begin(Path { root, parts })
}

/// Two queues, of which the second has the beginnings of the roots 7 and 8.
fn begun(alloc: Global) -> Result<Queues, AllocError> {
    let mut queues = Queues::new(alloc, 2)?;
    queues.put(2, begin(alloc, 7))?;
    queues.put(2, begin(alloc, 8))?;
    Ok(queues)
}

#[test]
fn messages_are_counted(rt: HostRuntime) -> Result<(), Fail> {
    let queues = begun(rt.alloc())?;
    assert!(rt; queues.count() == 2 && !queues.is_quiet());
    assert_eq!(rt; (queues.len(1), queues.len(2)), (0, 2));
    assert_eq!(rt; queues.count_of_root(8), 1);
    Ok(())
}

#[test]
fn first_in_first_out(rt: HostRuntime) -> Result<(), Fail> {
    let mut queues = begun(rt.alloc())?;
    assert_eq!(rt; queues.count(), 2);
    assert!(rt; matches!(queues.front(2), Some(Message::Begin(scope)) if scope.root == 7));
    assert!(rt; matches!(queues.take(2), Some(Message::Begin(scope)) if scope.root == 7));
    assert!(rt; matches!(queues.take(2), Some(Message::Begin(scope)) if scope.root == 8));
    assert!(rt; queues.take(2).is_none() && queues.is_quiet());
    Ok(())
}
