use crate::{
    Cond, Reg, ShiftOp, Width, byte_register, cond_at, cond_number, reg_at, shift_at, shift_number,
};

/// Numbers of Intel SDM volume 2, table 2-2 and appendix A.
#[test]
fn numbers_are_the_tables(rt: HostRuntime) {
    assert_eq!(rt; reg_at(4), Reg::Esp);
    assert!(rt; matches!(shift_at(6), None));
    assert_eq!(rt; shift_number(ShiftOp::Sar), 7);
    assert_eq!(rt; Width::Two.size(), 2);
}

/// Intel SDM volume 1, appendix B, table B-1.
#[test]
fn conditions_are_the_table(rt: HostRuntime) {
    let rows = [
        (0b0000, Cond::O),
        (0b0001, Cond::No),
        (0b0010, Cond::B),
        (0b0011, Cond::Ae),
        (0b0100, Cond::E),
        (0b0101, Cond::Ne),
        (0b0110, Cond::Be),
        (0b0111, Cond::A),
        (0b1000, Cond::S),
        (0b1001, Cond::Ns),
        (0b1010, Cond::P),
        (0b1011, Cond::Np),
        (0b1100, Cond::L),
        (0b1101, Cond::Ge),
        (0b1110, Cond::Le),
        (0b1111, Cond::G),
    ];
    for (number, cond) in rows {
        assert_eq!(rt; cond_number(cond), number);
        assert_eq!(rt; cond_at(number), cond);
    }
}

/// Intel SDM volume 2, table 3-1: AH is the second byte of EAX.
#[test]
fn fourth_byte_register_is_ah(rt: HostRuntime) {
    let named = byte_register(reg_at(4));
    assert_eq!(rt; named.reg, Reg::Eax);
    assert_eq!(rt; named.byte, 1);
}
