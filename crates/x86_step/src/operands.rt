// Operands, those that are read and those that are written.

use crate::operand::{Location, Place, Size};

/// An operand of so many bytes.
#[derive(Clone, Copy)]
pub(crate) struct Operand {
    pub size: Size,
    pub location: Location,
}

/// An operand in a register.
#[derive(Clone, Copy)]
pub(crate) struct Field {
    pub size: Size,
    pub place: Place,
}

/// At most four operands that are read, in order.
#[derive(Clone, Copy)]
pub(crate) enum Reads {
    Zero,
    One(Operand),
    Two(Operand, Operand),
    Three(Operand, Operand, Operand),
    Four(Operand, Operand, Operand, Operand),
}

/// At most three operands in registers, in order.
#[derive(Clone, Copy)]
pub(crate) enum Fields {
    Zero,
    One(Field),
    Two(Field, Field),
    Three(Field, Field, Field),
}

/// The operands that are written, in order, of which at most one stands in memory: operands in registers; any operand before
/// some in registers; or any operand behind esp.
#[derive(Clone, Copy)]
pub(crate) enum Writes {
    Fields(Fields),
    Then(Operand, Fields),
    EspThen(Operand),
}

/// What an instruction reads and writes.
#[derive(Clone, Copy)]
pub(crate) struct Transfer {
    pub reads: Reads,
    pub writes: Writes,
}
