// Programs that make system calls, with what they come to by Intel SDM volume 2 and the calls of Linux for the i386.
use crate::files::EXIT_SEVEN;
use crate::program::Program;
use mem_pages::RunEnd;

/// Programs that make system calls.
pub static WITH_CALLS: [Program; 7] = [
    // mov ebx, 7; and the exit
    Program {
        name: "exits with 7",
        text: EXIT_SEVEN,
        input: b"",
        written: &[],
        end: RunEnd::Exited(7),
        leaves_at: None,
    },
    // writes the three bytes behind the exit, hi and a newline
    Program {
        name: "writes a part of its code",
        text: b"\xB8\x04\0\0\0\xBB\x01\0\0\0\xB9\x23\x90\x04\x08\xBA\x03\0\0\0\xCD\x80\xBB\0\0\0\0\xB8\x01\0\0\0\xCD\x80\xF4\x68\x69\x0A",
        input: b"",
        written: &[b"\x68\x69\x0A"],
        end: RunEnd::Exited(0),
        leaves_at: None,
    },
    // push esp; mov ecx, esp; writes four bytes from there: esp is BFFEFF80
    Program {
        name: "writes esp",
        text: b"\x54\x89\xE1\xBA\x04\0\0\0\xBB\x01\0\0\0\xB8\x04\0\0\0\xCD\x80\xBB\0\0\0\0\xB8\x01\0\0\0\xCD\x80\xF4",
        input: b"",
        written: &[b"\x80\xFF\xFE\xBF"],
        end: RunEnd::Exited(0),
        leaves_at: None,
    },
    // the result, -14, is the status modulo 256
    Program {
        name: "writes from where nothing is mapped",
        text: b"\xB8\x04\0\0\0\xBB\x01\0\0\0\xB9\0\0\0\x60\xBA\x04\0\0\0\xCD\x80\x89\xC3\xB8\x01\0\0\0\xCD\x80\xF4",
        input: b"",
        written: &[],
        end: RunEnd::Exited(242),
        leaves_at: None,
    },
    // the same with a count of 0
    Program {
        name: "writes nothing from there",
        text: b"\xB8\x04\0\0\0\xBB\x01\0\0\0\xB9\0\0\0\x60\xBA\0\0\0\0\xCD\x80\x89\xC3\xB8\x01\0\0\0\xCD\x80\xF4",
        input: b"",
        written: &[],
        end: RunEnd::Exited(0),
        leaves_at: None,
    },
    // mov eax, 20; int 0x80
    Program {
        name: "makes another call",
        text: b"\xB8\x14\0\0\0\xCD\x80\xF4",
        input: b"",
        written: &[],
        end: RunEnd::OtherCall(20),
        leaves_at: None,
    },
    // writes a byte of its code; sub esp, 4; mov eax, [esp]; test eax, eax; je
    Program {
        name: "uses a byte below esp",
        text: b"\xB8\x04\0\0\0\xBB\x01\0\0\0\xB9\0\x90\x04\x08\xBA\x01\0\0\0\xCD\x80\x83\xEC\x04\x8B\x04\x24\x85\xC0\x74\0\xBB\0\0\0\0\xB8\x01\0\0\0\xCD\x80\xF4",
        input: b"",
        written: &[b"\xB8"],
        end: RunEnd::Unspecified,
        leaves_at: None,
    },
];
