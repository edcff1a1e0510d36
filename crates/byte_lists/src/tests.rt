// What no clause says: that calls with ample memory succeed.
use crate::{ByteList, half_at, push_halves, push_word, push_words, push_zeros, word_at};
use std::test::Fail;

#[test]
fn keeps_its_bytes(rt: HostRuntime) -> Result<(), Fail> {
    let list = ByteList::new(Vec::from_slice(rt.alloc(), b"abc")?);
    assert_eq!(rt; list.as_slice(), b"abc".as_slice());
    assert_eq!(rt; (list.len(), list.is_empty()), (3, false));
    assert_eq!(rt; list.into_vec().as_slice(), b"abc".as_slice());
    let none = ByteList::new(Vec::new(rt.alloc()));
    assert_eq!(rt; (none.len(), none.is_empty()), (0, true));
    Ok(())
}

#[test]
fn puts_the_lowest_byte_first(rt: HostRuntime) -> Result<(), Fail> {
    let mut bytes = Vec::new(rt.alloc());
    push_halves(&mut bytes, &[0x0102, 3])?;
    push_words(&mut bytes, &[0x12345678])?;
    push_word(&mut bytes, 9)?;
    push_zeros(&mut bytes, 3)?;
    let want = [
        0x02, 0x01, 3, 0, 0x78, 0x56, 0x34, 0x12, 9, 0, 0, 0, 0, 0, 0,
    ];
    assert_eq!(rt; bytes.as_slice(), want.as_slice());
    assert_eq!(rt; half_at(&want, 0), 0x0102);
    assert_eq!(rt; word_at(&want, 4), 0x12345678);
    Ok(())
}
