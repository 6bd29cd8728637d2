//! Words that are keywords, and others.

use flow_table::Keyword;
use std::test::Fail;

#[test]
fn words_and_keywords(rt: HostRuntime) -> Result<(), Fail> {
    for (word, keyword) in [
        ("STRUCTURE", Some(Keyword::Structure)),
        ("TEMPLATES", Some(Keyword::Templates)),
        ("AT_LEAST", Some(Keyword::AtLeast)),
        ("AT_LEAST_ONE", Some(Keyword::AtLeastOne)),
        ("or", None),
        ("ORR", None),
        ("", None),
    ] {
        assert_eq!(rt; Keyword::from_word(word.as_bytes()), keyword);
    }
    Ok(())
}

#[test]
fn spellings(rt: HostRuntime) -> Result<(), Fail> {
    assert_eq!(rt; Keyword::AtLeast.spelling(), b"AT_LEAST".as_slice());
    assert_eq!(rt; Keyword::Or.spelling(), b"OR".as_slice());
    Ok(())
}
