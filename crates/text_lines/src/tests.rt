use crate::{after_word, first_line, first_word, only_word, words_of};
use std::test::Fail;

#[test]
fn words_between_blanks(rt: HostRuntime) -> Result<(), Fail> {
    let words = words_of(rt.alloc(), b"\tload  a.efi ")?;
    assert_eq!(rt; words.len(), 2);
    assert_eq!(rt; words.at(0), b"load".as_slice());
    assert_eq!(rt; words.at(1), b"a.efi".as_slice());
    assert_eq!(rt; words.at(2), b"".as_slice());
    Ok(())
}

#[test]
fn lines_and_their_front(rt: HostRuntime) {
    let (line, rest) = first_line(b"load a.efi\r\ndump\r");
    assert_eq!(rt; line, b"load a.efi".as_slice());
    assert_eq!(rt; rest, b"dump\r".as_slice());
    assert_eq!(rt; first_word(line), b"load".as_slice());
    assert_eq!(rt; after_word(line), b"a.efi".as_slice());
    assert_eq!(rt; only_word(line), b"".as_slice());
    assert_eq!(rt; only_word(b" dump\t"), b"dump".as_slice());
}
