// What a program does.
use mem_pages::RunEnd;

/// A plain file's code, the input that its run is given, what it writes to descriptor 1, call by call, and how the run from its name
/// `a` alone ends. Where a run leaves the found code, `leaves_at` is the address at which no instruction is found.
#[derive(Drop)]
pub struct Program {
    pub name: &'static str,
    pub text: &'static [u8],
    pub input: &'static [u8],
    pub written: &'static [&'static [u8]],
    pub end: RunEnd,
    pub leaves_at: Option<u32>,
}
