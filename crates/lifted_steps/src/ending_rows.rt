// Rows of divisions, of accesses to memory that isn't mapped or can't be written, and of a system call, each with its step from the four states.
use crate::tests::Ending;
use x86_step::Stepped::{self, Call, DivideFault, MemoryFault, Next};

const CALL: [Stepped; 4] = [Call, Call, Call, Call];

const FAULT: [Stepped; 4] = [MemoryFault, MemoryFault, MemoryFault, MemoryFault];

pub(crate) static ENDINGS: [Ending; 19] = [
    Ending(
        "div cl",
        b"\xF6\xF1",
        [Next, DivideFault, DivideFault, DivideFault],
    ),
    Ending("div cx", b"\x66\xF7\xF1", [Next, Next, DivideFault, Next]),
    Ending("div ecx", b"\xF7\xF1", [Next, Next, DivideFault, Next]),
    Ending(
        "idiv cl",
        b"\xF6\xF9",
        [Next, Next, DivideFault, DivideFault],
    ),
    Ending(
        "idiv cx",
        b"\x66\xF7\xF9",
        [Next, DivideFault, DivideFault, DivideFault],
    ),
    Ending(
        "idiv ecx",
        b"\xF7\xF9",
        [Next, DivideFault, DivideFault, DivideFault],
    ),
    Ending(
        "div dword ptr [0x10000000]",
        b"\xF7\x35\x00\x00\x00\x10",
        FAULT,
    ),
    Ending("mov eax, [0x10000000]", b"\xA1\x00\x00\x00\x10", FAULT),
    Ending("mov [0x20001000], eax", b"\xA3\x00\x10\x00\x20", FAULT),
    Ending("mov [0x20000FFE], eax", b"\xA3\xFE\x0F\x00\x20", FAULT),
    Ending("add [0x20001000], eax", b"\x01\x05\x00\x10\x00\x20", FAULT),
    Ending(
        "cmovo eax, [0x10000000]",
        b"\x0F\x40\x05\x00\x00\x00\x10",
        FAULT,
    ),
    Ending(
        "seto byte ptr [0x20001000]",
        b"\x0F\x90\x05\x00\x10\x00\x20",
        FAULT,
    ),
    Ending(
        "push dword ptr [0x10000000]",
        b"\xFF\x35\x00\x00\x00\x10",
        FAULT,
    ),
    Ending(
        "pop dword ptr [0x20001000]",
        b"\x8F\x05\x00\x10\x00\x20",
        FAULT,
    ),
    Ending("xchg eax, [0x20001000]", b"\x87\x05\x00\x10\x00\x20", FAULT),
    Ending(
        "jmp dword ptr [0x10000000]",
        b"\xFF\x25\x00\x00\x00\x10",
        FAULT,
    ),
    Ending(
        "call dword ptr [0x10000000]",
        b"\xFF\x15\x00\x00\x00\x10",
        FAULT,
    ),
    Ending("int 0x80", b"\xCD\x80", CALL),
];
