ghost use Rattle.std.specs.Prelude.{◌≡◌, ◌<◌, ◌/◌, ◌%◌, slice_index_or, [], ◌∷◌};
ghost use Rattle.std.specs.Prelude.{ℕ, true, Some};
ghost use Rattle.x86_grammar.specs.declared.row.Row.{Row};
ghost use Rattle.x86_grammar.specs.Table.{entry_of, row_at};
ghost use Rattle.x86_grammar.specs.Rows.{opcode_of, reg_field_of, fits_reg_field};

use crate::row::{Entry, Group, Row};
use x86_types::{AluOp, Cond, Reg};

macro_rules! none {
    () => {
        [Entry::Nothing; 8]
    };
}

macro_rules! alu {
    ($op:ident) => {
        [
            Entry::One(Row::AluToRm(AluOp::$op, false)),
            Entry::One(Row::AluToRm(AluOp::$op, true)),
            Entry::One(Row::AluToReg(AluOp::$op, false)),
            Entry::One(Row::AluToReg(AluOp::$op, true)),
            Entry::One(Row::AluAcc(AluOp::$op, false)),
            Entry::One(Row::AluAcc(AluOp::$op, true)),
            Entry::Nothing,
            Entry::Nothing,
        ]
    };
}

macro_rules! regs {
    ($row:ident) => {
        [
            Entry::One(Row::$row(Reg::Eax)),
            Entry::One(Row::$row(Reg::Ecx)),
            Entry::One(Row::$row(Reg::Edx)),
            Entry::One(Row::$row(Reg::Ebx)),
            Entry::One(Row::$row(Reg::Esp)),
            Entry::One(Row::$row(Reg::Ebp)),
            Entry::One(Row::$row(Reg::Esi)),
            Entry::One(Row::$row(Reg::Edi)),
        ]
    };
}

macro_rules! moves {
    ($w:expr) => {
        [
            Entry::One(Row::MovReg(Reg::Eax, $w)),
            Entry::One(Row::MovReg(Reg::Ecx, $w)),
            Entry::One(Row::MovReg(Reg::Edx, $w)),
            Entry::One(Row::MovReg(Reg::Ebx, $w)),
            Entry::One(Row::MovReg(Reg::Esp, $w)),
            Entry::One(Row::MovReg(Reg::Ebp, $w)),
            Entry::One(Row::MovReg(Reg::Esi, $w)),
            Entry::One(Row::MovReg(Reg::Edi, $w)),
        ]
    };
}

macro_rules! conds {
    ($row:ident, $a:ident, $b:ident, $c:ident, $d:ident, $e:ident, $f:ident, $g:ident, $h:ident) => {
        [
            Entry::One(Row::$row(Cond::$a)),
            Entry::One(Row::$row(Cond::$b)),
            Entry::One(Row::$row(Cond::$c)),
            Entry::One(Row::$row(Cond::$d)),
            Entry::One(Row::$row(Cond::$e)),
            Entry::One(Row::$row(Cond::$f)),
            Entry::One(Row::$row(Cond::$g)),
            Entry::One(Row::$row(Cond::$h)),
        ]
    };
}

macro_rules! sets {
    ($a:ident, $b:ident, $c:ident, $d:ident, $e:ident, $f:ident, $g:ident, $h:ident) => {
        [
            Entry::By(Group::Sets(Cond::$a)),
            Entry::By(Group::Sets(Cond::$b)),
            Entry::By(Group::Sets(Cond::$c)),
            Entry::By(Group::Sets(Cond::$d)),
            Entry::By(Group::Sets(Cond::$e)),
            Entry::By(Group::Sets(Cond::$f)),
            Entry::By(Group::Sets(Cond::$g)),
            Entry::By(Group::Sets(Cond::$h)),
        ]
    };
}

/// What each opcode says, eight to a line; from line 32 on stand those behind 0F. Intel SDM volume
/// 2, tables A-2 and A-3.
pub static ENTRIES: [[Entry; 8]; 64] = [
    // 00
    alu!(Add),
    alu!(Or),
    alu!(Adc),
    alu!(Sbb),
    alu!(And),
    alu!(Sub),
    alu!(Xor),
    alu!(Cmp),
    // 40
    regs!(IncReg),
    regs!(DecReg),
    regs!(PushReg),
    regs!(PopReg),
    none!(),
    [
        Entry::One(Row::PushWord),
        Entry::One(Row::ImulWord),
        Entry::One(Row::PushByte),
        Entry::One(Row::ImulByte),
        Entry::Nothing,
        Entry::Nothing,
        Entry::Nothing,
        Entry::Nothing,
    ],
    conds!(JccShort, O, No, B, Ae, E, Ne, Be, A),
    conds!(JccShort, S, Ns, P, Np, L, Ge, Le, G),
    // 80
    [
        Entry::One(Row::AluImm(false)),
        Entry::One(Row::AluImm(true)),
        Entry::Nothing,
        Entry::One(Row::AluByte),
        Entry::One(Row::TestRm(false)),
        Entry::One(Row::TestRm(true)),
        Entry::One(Row::Xchg(false)),
        Entry::One(Row::Xchg(true)),
    ],
    [
        Entry::One(Row::MovToRm(false)),
        Entry::One(Row::MovToRm(true)),
        Entry::One(Row::MovToReg(false)),
        Entry::One(Row::MovToReg(true)),
        Entry::Nothing,
        Entry::One(Row::Lea),
        Entry::Nothing,
        Entry::By(Group::Pops),
    ],
    [
        Entry::One(Row::Nop),
        Entry::One(Row::XchgAcc(Reg::Ecx)),
        Entry::One(Row::XchgAcc(Reg::Edx)),
        Entry::One(Row::XchgAcc(Reg::Ebx)),
        Entry::One(Row::XchgAcc(Reg::Esp)),
        Entry::One(Row::XchgAcc(Reg::Ebp)),
        Entry::One(Row::XchgAcc(Reg::Esi)),
        Entry::One(Row::XchgAcc(Reg::Edi)),
    ],
    [
        Entry::One(Row::Extend),
        Entry::One(Row::Spread),
        Entry::Nothing,
        Entry::Nothing,
        Entry::Nothing,
        Entry::Nothing,
        Entry::Nothing,
        Entry::Nothing,
    ],
    [
        Entry::One(Row::MovLoad(false)),
        Entry::One(Row::MovLoad(true)),
        Entry::One(Row::MovStore(false)),
        Entry::One(Row::MovStore(true)),
        Entry::One(Row::Movs(false)),
        Entry::One(Row::Movs(true)),
        Entry::Nothing,
        Entry::Nothing,
    ],
    [
        Entry::One(Row::TestAcc(false)),
        Entry::One(Row::TestAcc(true)),
        Entry::One(Row::Stos(false)),
        Entry::One(Row::Stos(true)),
        Entry::Nothing,
        Entry::Nothing,
        Entry::Nothing,
        Entry::Nothing,
    ],
    moves!(false),
    moves!(true),
    // C0
    [
        Entry::By(Group::ShiftsImm(false)),
        Entry::By(Group::ShiftsImm(true)),
        Entry::One(Row::RetDrop),
        Entry::One(Row::Ret),
        Entry::Nothing,
        Entry::Nothing,
        Entry::By(Group::Moves(false)),
        Entry::By(Group::Moves(true)),
    ],
    [
        Entry::Nothing,
        Entry::One(Row::Leave),
        Entry::Nothing,
        Entry::Nothing,
        Entry::Nothing,
        Entry::One(Row::Int80),
        Entry::Nothing,
        Entry::Nothing,
    ],
    [
        Entry::By(Group::ShiftsOne(false)),
        Entry::By(Group::ShiftsOne(true)),
        Entry::By(Group::ShiftsCl(false)),
        Entry::By(Group::ShiftsCl(true)),
        Entry::Nothing,
        Entry::Nothing,
        Entry::Nothing,
        Entry::Nothing,
    ],
    none!(),
    none!(),
    [
        Entry::One(Row::CallNear),
        Entry::One(Row::JmpNear),
        Entry::Nothing,
        Entry::One(Row::JmpShort),
        Entry::Nothing,
        Entry::Nothing,
        Entry::Nothing,
        Entry::Nothing,
    ],
    [
        Entry::Nothing,
        Entry::Nothing,
        Entry::Nothing,
        Entry::Nothing,
        Entry::Nothing,
        Entry::Nothing,
        Entry::By(Group::Units(false)),
        Entry::By(Group::Units(true)),
    ],
    [
        Entry::Nothing,
        Entry::Nothing,
        Entry::Nothing,
        Entry::Nothing,
        Entry::One(Row::Cld),
        Entry::Nothing,
        Entry::By(Group::Steps(false)),
        Entry::By(Group::Steps(true)),
    ],
    // 0F 00
    none!(),
    none!(),
    none!(),
    [
        Entry::Nothing,
        Entry::Nothing,
        Entry::Nothing,
        Entry::Nothing,
        Entry::Nothing,
        Entry::Nothing,
        Entry::One(Row::NopEnd),
        Entry::By(Group::Nops),
    ],
    none!(),
    none!(),
    none!(),
    none!(),
    // 0F 40
    conds!(Cmov, O, No, B, Ae, E, Ne, Be, A),
    conds!(Cmov, S, Ns, P, Np, L, Ge, Le, G),
    none!(),
    none!(),
    none!(),
    none!(),
    none!(),
    none!(),
    // 0F 80
    conds!(JccNear, O, No, B, Ae, E, Ne, Be, A),
    conds!(JccNear, S, Ns, P, Np, L, Ge, Le, G),
    sets!(O, No, B, Ae, E, Ne, Be, A),
    sets!(S, Ns, P, Np, L, Ge, Le, G),
    [
        Entry::Nothing,
        Entry::Nothing,
        Entry::Nothing,
        Entry::Nothing,
        Entry::One(Row::ShldImm),
        Entry::One(Row::ShldCl),
        Entry::Nothing,
        Entry::Nothing,
    ],
    [
        Entry::Nothing,
        Entry::Nothing,
        Entry::Nothing,
        Entry::Nothing,
        Entry::One(Row::ShrdImm),
        Entry::One(Row::ShrdCl),
        Entry::Nothing,
        Entry::One(Row::Imul),
    ],
    [
        Entry::Nothing,
        Entry::Nothing,
        Entry::Nothing,
        Entry::Nothing,
        Entry::Nothing,
        Entry::Nothing,
        Entry::One(Row::MovzxByte),
        Entry::One(Row::MovzxWord),
    ],
    [
        Entry::Nothing,
        Entry::Nothing,
        Entry::Nothing,
        Entry::Nothing,
        Entry::One(Row::Bsf),
        Entry::One(Row::Bsr),
        Entry::One(Row::MovsxByte),
        Entry::One(Row::MovsxWord),
    ],
    // 0F C0
    none!(),
    regs!(BswapReg),
    none!(),
    none!(),
    none!(),
    none!(),
    none!(),
    none!(),
];

/// What the opcode says; 256 stands for 0F before the byte, and beyond that there is nothing.
pub fn entry_at(opcode: u16) -> Entry
    ensures entry { result ≡ entry_of opcode }
{
    if opcode < 0x200 {
        ENTRIES[opcode as usize / 8][opcode as usize % 8]
    } else {
        Entry::Nothing
    }
}

/// The map has each row at its opcode and reg field, and no other row there.
pub fn opcode_map_is_right()
    ensures right { (opcode n : ℕ) (r : Row) → opcode < 0x200 → n < 8 → row_at opcode n ≡ Some r →
        (opcode_of r ≡ opcode) × (fits_reg_field (reg_field_of r) n ≡ true) }
    ensures whole { (r : Row) (n : ℕ) → fits_reg_field (reg_field_of r) n ≡ true → row_at (opcode_of r) n ≡ Some r }
{}
