//! One spelling of each kind.
use flow_text::{decimal, quoted_name, quoted_text, signed};
use std::test::Fail;

#[test]
fn spells_numbers(rt: HostRuntime) -> Result<(), Fail> {
    let mut out = Vec::new(rt.alloc());
    decimal(&mut out, u64::MAX)?;
    for number in [-5, i64::MIN, 0] {
        signed(&mut out, number)?;
    }
    let spelled = "18446744073709551615-5-92233720368547758080";
    assert_eq!(rt; out.as_slice(), spelled.as_bytes());
    Ok(())
}

#[test]
fn spells_names_and_texts(rt: HostRuntime) -> Result<(), Fail> {
    let mut out = Vec::new(rt.alloc());
    quoted_name(&mut out, b"ann".as_slice())?;
    quoted_text(&mut out, b"a \"b\"".as_slice())?;
    assert_eq!(rt; out.as_slice(), b"'ann'\"a \"\"b\"\"\"".as_slice());
    Ok(())
}
