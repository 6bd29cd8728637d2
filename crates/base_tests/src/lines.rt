//! Lines over a short script, and calls that fail in mid-stream.
use flow_io::{Failed, IoStop, Line, Lines, MemSink, MemSource, put_all};
use std::test::Fail;

#[test]
fn serves_the_lines_within_the_limit(rt: HostRuntime) -> Result<(), Fail> {
    let mut source = MemSource::new(rt.alloc(), b"a\nb\nc\nd\ne\nf\n".as_slice(), [].as_slice())?;
    let mut lines = Lines::new(rt.alloc(), 10)?;
    for text in ["a", "b", "c", "d", "e"] {
        assert_eq!(rt; lines.next(&mut source), Ok(Line::Text));
        assert_eq!(rt; lines.text(), text.as_bytes());
    }
    assert_eq!(rt; lines.next(&mut source), Err(IoStop::ScriptTooLong));
    Ok(())
}

#[test]
fn stops_where_the_source_fails(rt: HostRuntime) -> Result<(), Fail> {
    let mut source = MemSource::new(rt.alloc(), b"a\nb".as_slice(), [2].as_slice())?;
    let mut lines = Lines::new(rt.alloc(), 10)?;
    assert_eq!(rt; lines.next(&mut source), Ok(Line::Text));
    assert_eq!(rt; lines.next(&mut source), Err(IoStop::ReadFault));
    Ok(())
}

#[test]
fn keeps_what_was_put_before_a_fault(rt: HostRuntime) -> Result<(), Fail> {
    let mut sink = MemSink::new(rt.alloc(), [2].as_slice())?;
    assert_eq!(rt; put_all(&mut sink, b"one".as_slice()), Ok(()));
    assert_eq!(rt; put_all(&mut sink, b"two".as_slice()), Err(Failed));
    assert_eq!(rt; put_all(&mut sink, b"three".as_slice()), Ok(()));
    assert_eq!(rt; sink.held(), b"onethree".as_slice());
    assert_eq!(rt; sink.starved(), 0);
    Ok(())
}
