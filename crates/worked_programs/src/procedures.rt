// Programs that call procedures, jump or fault, with what they come to by Intel SDM volume 2.
use crate::files::ADD_TWO;
use crate::program::Program;
use mem_pages::RunEnd;

/// Programs that call procedures, jump or fault.
pub static WITH_PROCEDURES: [Program; 10] = [
    // a callee reads its return word, and the caller a word beside it
    Program {
        name: "takes its return address",
        text: b"\xE8\x10\0\0\0\x8B\x83\x17\0\0\0\x89\xC3\xB8\x01\0\0\0\xCD\x80\xF4\x8B\x1C\x24\xC3\0\0\0\x05\0\0\0",
        input: b"",
        written: &[],
        end: RunEnd::Exited(5),
        leaves_at: None,
    },
    // pushes 3 and 2, and calls what adds them
    Program {
        name: "adds two numbers",
        text: ADD_TWO,
        input: b"",
        written: &[],
        end: RunEnd::Exited(5),
        leaves_at: None,
    },
    // push 3; a call of inc dword [esp + 4]; pop ebx
    Program {
        name: "increments an argument",
        text: b"\x6A\x03\xE8\x09\0\0\0\x5B\xB8\x01\0\0\0\xCD\x80\xF4\xFF\x44\x24\x04\xC3",
        input: b"",
        written: &[],
        end: RunEnd::Exited(4),
        leaves_at: None,
    },
    // push 6; mov [0804A000], esp; a call of mov eax, [0804A000]; mov eax, [eax]
    Program {
        name: "reads its caller's stack",
        text: b"\xE8\x0A\0\0\0\x89\xC3\xB8\x01\0\0\0\xCD\x80\xF4\x6A\x06\x89\x25\0\xA0\x04\x08\xE8\x04\0\0\0\x83\xC4\x04\xC3\xA1\0\xA0\x04\x08\x8B\0\xC3",
        input: b"",
        written: &[],
        end: RunEnd::Exited(6),
        leaves_at: None,
    },
    // and esp, -16; and the addition
    Program {
        name: "aligns its stack",
        text: b"\x83\xE4\xF0\x6A\x03\x6A\x02\xE8\x0D\0\0\0\x83\xC4\x08\x89\xC3\xB8\x01\0\0\0\xCD\x80\xF4\x8B\x44\x24\x04\x03\x44\x24\x08\xC3",
        input: b"",
        written: &[],
        end: RunEnd::Exited(5),
        leaves_at: None,
    },
    // mov eax, 4024805; add eax, eax; call eax, which leads into the next instruction, where bytes 00 00 store into the code
    Program {
        name: "calls into its code",
        text: b"\xB8\x05\x48\x02\x04\x01\xC0\xFF\xD0\xBB\0\0\0\0\xB8\x01\0\0\0\xCD\x80\xF4",
        input: b"",
        written: &[],
        end: RunEnd::MemoryFault,
        leaves_at: Some(0x0804900A),
    },
    // mov dword [60000000], 7
    Program {
        name: "writes where nothing is mapped",
        text: b"\xC7\x05\0\0\0\x60\x07\0\0\0\xF4",
        input: b"",
        written: &[],
        end: RunEnd::MemoryFault,
        leaves_at: None,
    },
    // mov eax, 80000000; cdq; mov ecx, -1; idiv ecx
    Program {
        name: "divides the least number by -1",
        text: b"\xB8\0\0\0\x80\x99\xB9\xFF\xFF\xFF\xFF\xF7\xF9\xF4",
        input: b"",
        written: &[],
        end: RunEnd::DivideFault,
        leaves_at: None,
    },
    // movaps xmm0, xmm1
    Program {
        name: "comes to another instruction",
        text: b"\x0F\x28\xC1",
        input: b"",
        written: &[],
        end: RunEnd::Outside,
        leaves_at: Some(0x08049000),
    },
    // jmp +3; movaps; mov ebx, 0; and the exit
    Program {
        name: "jumps over another instruction",
        text: b"\xEB\x03\x0F\x28\xC1\xBB\0\0\0\0\xB8\x01\0\0\0\xCD\x80\xF4",
        input: b"",
        written: &[],
        end: RunEnd::Exited(0),
        leaves_at: None,
    },
];
