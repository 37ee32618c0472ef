// Texts and lists.
use std::alloc::{AllocError, Global};
use std::test::Fail;
use sv_source::{FileNames, Kind, Place, Text, Token, Tokens};

fn pushed(alloc: Global) -> Result<Text, AllocError> {
    let mut text = Text::from_bytes(alloc, b"ab")?;
    text.push(b'c')?;
    text.push_bytes(b"de")?;
    Ok(text)
}

#[test]
fn keeps_bytes(rt: HostRuntime) -> Result<(), Fail> {
    let text = pushed(rt.alloc())?;
    assert_eq!(rt; text.as_bytes(), b"abcde".as_slice());
    assert_eq!(rt; text.as_slice(), b"abcde".as_slice());
    assert_eq!(rt; text.len(), 5);
    assert!(rt; text.is(b"abcde") && !text.is(b"abcd"));
    Ok(())
}

#[test]
fn a_copy_is_the_same(rt: HostRuntime) -> Result<(), Fail> {
    let alloc = rt.alloc();
    let text = pushed(alloc)?;
    let copy = text.copy(alloc)?;
    assert_eq!(rt; copy.as_bytes(), b"abcde".as_slice());
    assert!(rt; copy == text && copy.is(b"abcde"));
    Ok(())
}

#[test]
fn other_bytes_are_another_text(rt: HostRuntime) -> Result<(), Fail> {
    let alloc = rt.alloc();
    let text = pushed(alloc)?;
    let whole = Text::from_vec([b'x'].to_vec(alloc)?);
    assert_eq!(rt; whole.as_bytes(), b"x".as_slice());
    assert!(rt; whole != text);
    Ok(())
}

#[test]
fn a_new_text_is_empty(rt: HostRuntime) -> Result<(), Fail> {
    let alloc = rt.alloc();
    assert!(rt; Text::new(alloc).is_empty() && !pushed(alloc)?.is_empty());
    Ok(())
}

#[test]
fn lists_keep_order(rt: HostRuntime) -> Result<(), Fail> {
    let alloc = rt.alloc();
    let mut tokens = Tokens::from_vec(Vec::new(alloc));
    for (kind, col) in [(Kind::Name, 1), (Kind::Mark, 5)] {
        let place = Place {
            file: 0,
            line: 1,
            col,
        };
        let text = Text::from_bytes(alloc, b"t")?;
        tokens.push(Token { kind, text, place })?;
    }
    let slice = tokens.as_slice();
    assert_eq!(rt; slice.len(), 2);
    assert!(rt; slice[0].kind == Kind::Name && slice[1].kind == Kind::Mark);
    assert!(rt; slice[0].place < slice[1].place);
    let mut names = FileNames::new(alloc);
    names.push(Text::from_bytes(alloc, b"a.sv")?)?;
    assert_eq!(rt; names.len(), 1);
    Ok(())
}
