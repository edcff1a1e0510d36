// How a call ends, with its line and its status.
ghost use Rattle.std.specs.Prelude.{◌≡◌, ◌≤◌, length, None, Some, MatchOption};
ghost use Rattle.sw_top.specs.Ends.{status_of, run_status, line_of, run_line, refusal_line};

use arrayvec::ArrayString;
use elf_image::Refusal;
use itoa::Buffer;
use mem_pages::RunEnd;

/// A text of at most 64 bytes, which takes no memory.
pub(crate) type Text = ArrayString<64>;

/// How the top call ends. `Ran`: the run ended so; `Usage`: the words have no form that is known; `TooLong`: the file has more than
/// 16 MiB, or 512 MiB for a run; `Refused`: the file is turned away; `Host`: a call of the host failed; `Memory`: memory is wanting.
#[derive(Clone, Copy, Debug, PartialEq, Eq)]
pub enum End {
    Done,
    Ran(RunEnd),
    Usage,
    TooLong,
    Refused(Refusal),
    Host,
    Memory,
}

/// The exit status of an end.
pub fn status(end: &End) -> u8
    ensures { result ≡ status_of end.now }
{
    match end {
        End::Done => 0,
        End::Ran(end) => run_status(*end),
        End::Memory => 120,
        End::Host => 121,
        End::TooLong => 122,
        End::Refused(_) => 124,
        End::Usage => 125,
    }
}

// The exit status of an end of a run.
fn run_status(end: RunEnd) -> u8
    ensures { result ≡ run_status end }
{
    match end {
        RunEnd::Exited(status) => status,
        RunEnd::MemoryFault => 139,
        RunEnd::DivideFault => 136,
        RunEnd::Outside => 132,
        RunEnd::OtherCall(_) => 117,
        RunEnd::Unspecified => 118,
        RunEnd::Spent => 119,
    }
}

/// The line of an end, where it has one.
pub fn line_of(end: &End) -> Option<Text>
    ensures { MatchOption result (line_of end.now ≡ None) (λ text. line_of end.now ≡ Some text.bytes) }
{
    match end {
        End::Done => None,
        End::Ran(end) => run_line(*end),
        End::Usage => Some(text_of("sw: usage")),
        End::TooLong => Some(text_of("sw: file too long")),
        End::Refused(refusal) => Some(text_of(refusal_line(*refusal))),
        End::Host => Some(text_of("sw: host fault")),
        End::Memory => Some(text_of("sw: no memory")),
    }
}

// The line of an end of a run, where it has one.
fn run_line(end: RunEnd) -> Option<Text>
    ensures { MatchOption result (run_line end ≡ None) (λ text. run_line end ≡ Some text.bytes) }
{
    match end {
        RunEnd::Exited(_) | RunEnd::MemoryFault | RunEnd::DivideFault | RunEnd::Outside => None,
        RunEnd::OtherCall(number) => {
            let mut text = text_of("sw: call ");
            text.push_str(Buffer::new().format(number));
            Some(text)
        }
        RunEnd::Unspecified => Some(text_of("sw: unspecified value")),
        RunEnd::Spent => Some(text_of("sw: steps spent")),
    }
}

fn text_of(bytes: &str) -> Text
    requires { length bytes.now ≤ 64 }
    ensures { result.bytes ≡ bytes.now }
{
    let mut text = Text::new();
    text.push_str(bytes);
    text
}

fn refusal_line(refusal: Refusal) -> &'static str
    ensures text { result.now ≡ refusal_line refusal }
    ensures short { length result.now ≤ 64 }
{
    match refusal {
        Refusal::Short => "sw: refused Short",
        Refusal::Magic => "sw: refused Magic",
        Refusal::Class => "sw: refused Class",
        Refusal::Order => "sw: refused Order",
        Refusal::Version => "sw: refused Version",
        Refusal::Kind => "sw: refused Kind",
        Refusal::Machine => "sw: refused Machine",
        Refusal::HeaderSize => "sw: refused HeaderSize",
        Refusal::HeaderTable => "sw: refused HeaderTable",
        Refusal::Dynamic => "sw: refused Dynamic",
        Refusal::SegmentFile => "sw: refused SegmentFile",
        Refusal::SegmentSize => "sw: refused SegmentSize",
        Refusal::SegmentAlign => "sw: refused SegmentAlign",
        Refusal::Permission => "sw: refused Permission",
        Refusal::Range => "sw: refused Range",
        Refusal::SharedPage => "sw: refused SharedPage",
        Refusal::Entry => "sw: refused Entry",
        Refusal::CodeSpan => "sw: refused CodeSpan",
        Refusal::ImageSize => "sw: refused ImageSize",
        Refusal::NotYet => "sw: refused NotYet",
    }
}
