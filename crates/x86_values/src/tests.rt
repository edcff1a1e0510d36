// What no clause says: values that are worked by hand, and that a number's word gives the number back.
use crate::{Byte, Word, known, word_of};

#[test]
fn has_the_lowest_byte_first(rt: HostRuntime) {
    for (value, [a, b, c, d]) in [
        (0, [0, 0, 0, 0]),
        (7, [7, 0, 0, 0]),
        (0x12345678, [0x78, 0x56, 0x34, 0x12]),
        (0xFFFFFFF7, [0xF7, 0xFF, 0xFF, 0xFF]),
    ] {
        let word = Word {
            b0: Byte::Known(a),
            b1: Byte::Known(b),
            b2: Byte::Known(c),
            b3: Byte::Known(d),
        };
        assert_eq!(rt; word_of(value), word, "{value}");
        assert_eq!(rt; known(word), Some(value), "{value}");
    }
    let (a, none) = (Byte::Known(1), Byte::Unspecified);
    for [b0, b1, b2, b3] in [
        [none, a, a, a],
        [a, none, a, a],
        [a, a, none, a],
        [a, a, a, none],
    ] {
        let word = Word { b0, b1, b2, b3 };
        assert_eq!(rt; known(word), None, "{word:?}");
    }
}
