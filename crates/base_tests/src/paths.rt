//! Which texts are paths.
use flow_model::{path_of, path_text};
use std::test::Fail;

#[test]
fn reads_the_spellings_of_paths(rt: HostRuntime) -> Result<(), Fail> {
    for text in [
        "1",
        "18446744073709551615",
        "1/A#1",
        "20/Check it#10/B-c_d#18446744073709551615",
    ] {
        let path = path_of(rt.alloc(), text.as_bytes())?;
        assert_eq!(rt; path_text(rt.alloc(), &path)?.as_slice(), text.as_bytes());
    }
    Ok(())
}

#[test]
fn refuses_what_spells_no_path(rt: HostRuntime) -> Result<(), Fail> {
    for text in [
        "",
        "0",
        "01",
        "+1",
        "18446744073709551616",
        "1x",
        "1/",
        "1/A",
        "1/A#",
        "1/A#0",
        "1/A#01",
        "1/A#+1",
        "1/A#18446744073709551616",
        "1/A#1/",
        "1//A#1",
        "1/1#1",
        "/A#1",
        "1/A#1#1",
    ] {
        assert!(rt; path_of(rt.alloc(), text.as_bytes()).is_err());
    }
    Ok(())
}
