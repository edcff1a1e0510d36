// Values of the processor's operations that are worked by hand (Intel SDM volume 2, "ADD", "DIV", "IDIV").
use x86_values::{Answered, Divided, Flags, add, divide, word_of};

#[test]
fn adds_and_divides(rt: HostRuntime) {
    let sum = Answered {
        value: word_of(0),
        flags: Flags {
            cf: Some(true),
            pf: Some(true),
            zf: Some(true),
            sf: Some(false),
            of: Some(false),
        },
    };
    assert_eq!(rt; add(1, word_of(255), word_of(1), Some(false)), sum);
    // 2^32 by 2, and -2^31 by -1
    assert_eq!(rt;
        divide(false, 4, word_of(1), word_of(0), word_of(2)),
        Divided::Got(word_of(0x8000_0000), word_of(0))
    );
    assert_eq!(rt;
        divide(
            true,
            4,
            word_of(0xFFFF_FFFF),
            word_of(0x8000_0000),
            word_of(0xFFFF_FFFF)
        ),
        Divided::Fault
    );
}
