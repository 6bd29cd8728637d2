//! The tokens of a line, and where a text has none.

use fdl_lexer::{LexFault, Mark, What, lex, text_value};
use flow_table::Keyword;
use std::test::Fail;

#[test]
fn a_line_of_each_kind(rt: HostRuntime) -> Result<(), Fail> {
    let line = b"OR /* ** */ 'A-b 1' '_RC' '1/A#2' 18446744073709551616 \"say \"\"hi\"\"\" <>";
    let wanted = [
        (What::Word(Keyword::Or), 0, 2),
        (What::Name, 12, 19),
        (What::Rc, 20, 25),
        (What::Item, 26, 33),
        (What::Number(18446744073709551615), 34, 54),
        (What::Text, 55, 67),
        (What::Mark(Mark::NotEqual), 68, 70),
    ];
    let tokens = lex(rt.alloc(), line)?;
    assert_eq!(rt; tokens.items.len(), 7);
    for (token, (what, from, to)) in tokens.items.as_slice().iter().zip(wanted.iter()) {
        assert_eq!(rt; token.what, *what);
        assert_eq!(rt; token.from, *from);
        assert_eq!(rt; token.to, *to);
    }
    Ok(())
}

#[test]
fn a_doubled_quote_is_read_as_one(rt: HostRuntime) -> Result<(), Fail> {
    let value = text_value(rt.alloc(), b"\"say \"\"hi\"\"\"")?;
    assert_eq!(rt; value.as_slice(), b"say \"hi\"".as_slice());
    Ok(())
}

#[test]
fn the_first_fault(rt: HostRuntime) -> Result<(), Fail> {
    for (text, fault) in [
        ("or \x7f", LexFault::Byte(3)),
        ("OR or", LexFault::Token(3)),
        (" \"\"\"", LexFault::Token(1)),
        ("( /*/", LexFault::Token(2)),
        ("01", LexFault::Token(0)),
    ] {
        assert_eq!(rt; lex(rt.alloc(), text.as_bytes()).err(), Some(fault));
    }
    Ok(())
}

#[test]
fn blanks_are_no_tokens(rt: HostRuntime) -> Result<(), Fail> {
    let tokens = lex(rt.alloc(), b" \n")?;
    assert_eq!(rt; tokens.items.len(), 0);
    Ok(())
}
