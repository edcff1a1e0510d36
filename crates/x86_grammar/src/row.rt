use x86_types::{AluOp, Cond, Reg, Rm, ShiftOp};

/// A row of the opcode map, with what the lowest bits of the opcode say, in the order of the map. A `bool` is
/// the w bit, false for the opcode of width One. Intel SDM volume 2, appendix A. The variants are printed by
/// tools/rows.py.
#[derive(Clone, Copy)]
pub enum Row {
    AluToRm(AluOp, bool),
    AluToReg(AluOp, bool),
    AluAcc(AluOp, bool),
    IncReg(Reg),
    DecReg(Reg),
    PushReg(Reg),
    PopReg(Reg),
    PushWord,
    ImulWord,
    PushByte,
    ImulByte,
    JccShort(Cond),
    AluImm(bool),
    AluByte,
    TestRm(bool),
    Xchg(bool),
    MovToRm(bool),
    MovToReg(bool),
    Lea,
    Pop,
    XchgAcc(Reg),
    Nop,
    Extend,
    Spread,
    MovLoad(bool),
    MovStore(bool),
    Movs(bool),
    TestAcc(bool),
    Stos(bool),
    MovReg(Reg, bool),
    ShiftImm(ShiftOp, bool),
    RetDrop,
    Ret,
    MovImm(bool),
    Leave,
    Int80,
    ShiftOne(ShiftOp, bool),
    ShiftCl(ShiftOp, bool),
    CallNear,
    JmpNear,
    JmpShort,
    TestImm(bool),
    Not(bool),
    Neg(bool),
    Mul(bool),
    ImulWide(bool),
    Div(bool),
    Idiv(bool),
    Cld,
    Inc(bool),
    Dec(bool),
    CallTo,
    JmpTo,
    Push,
    NopEnd,
    NopLong,
    Cmov(Cond),
    JccNear(Cond),
    Setcc(Cond),
    ShldImm,
    ShldCl,
    ShrdImm,
    ShrdCl,
    Imul,
    MovzxByte,
    MovzxWord,
    Bsf,
    Bsr,
    MovsxByte,
    MovsxWord,
    BswapReg(Reg),
}

/// Rows that share their opcode and are told apart by ModRM's reg field. Intel SDM volume 2,
/// table A-6.
#[derive(Clone, Copy)]
pub enum Group {
    Pops,
    Moves(bool),
    Units(bool),
    Steps(bool),
    ShiftsImm(bool),
    ShiftsOne(bool),
    ShiftsCl(bool),
    Sets(Cond),
    Nops,
}

/// What an opcode says.
#[derive(Clone, Copy)]
pub enum Entry {
    Nothing,
    One(Row),
    By(Group),
}

/// How many of each prefix stand before an opcode: 66, 2E, 3E and F3. Intel SDM volume 2, section
/// 2.1.1.
#[derive(Clone, Copy)]
pub struct Counts {
    pub operand_sizes: u8,
    pub segments: u8,
    pub hints: u8,
    pub repeats: u8,
}

/// A row with what it is used on: whether 66 makes width Two, whether F3 stands, ModRM's reg
/// field, its operand and the immediate. No `rm`: any will do, or ModRM doesn't stand.
#[derive(Clone, Copy)]
pub struct Form {
    pub row: Row,
    pub operand_size: bool,
    pub rep: bool,
    pub reg_field: u8,
    pub rm: Option<Rm>,
    pub imm: u32,
}

/// The values of ModRM's reg field for a row: any, one alone where rows share an opcode, or none, where the
/// opcode is another row's.
#[derive(Clone, Copy)]
pub enum RegField {
    Any,
    Is(u8),
    Nowhere,
}

/// Whether F3 never stands before a row's opcode, may stand there, or must.
#[derive(Clone, Copy)]
pub enum F3 {
    Never,
    May,
    Must,
}

/// Which prefixes a row knows: one 66, which makes width Two; any number of 66, which say nothing; any
/// number of 2E; one 3E; and F3.
#[derive(Clone, Copy)]
pub struct Prefixes {
    pub operand_size: bool,
    pub any_66: bool,
    pub any_2e: bool,
    pub one_3e: bool,
    pub f3: F3,
}

/// The immediate of a row: none, of 8, 16 or 32 bits, or of the operand's width, by the w bit. Intel SDM
/// volume 2, section 3.1.1.1 ("ib", "iw", "id").
#[derive(Clone, Copy)]
pub enum ImmSize {
    NoImm,
    Imm8,
    Imm16,
    Imm32,
    ImmOperand(bool),
}

/// What is known of a row: its opcode, with 0x100 for 0F before the byte, whether ModRM stands behind it, ModRM's
/// reg field, its prefixes, and the immediate.
#[derive(Clone, Copy)]
pub struct Attributes {
    pub opcode: u16,
    pub modrm: bool,
    pub reg_field: RegField,
    pub prefixes: Prefixes,
    pub imm: ImmSize,
}
