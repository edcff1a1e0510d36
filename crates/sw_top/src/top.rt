// The top call.
ghost use Rattle.std.specs.Prelude.{◌≡◌, ◌≤◌, ◌↔◌, None};
ghost use Rattle.mem_pages.specs.declared.end.RunEnd.{RunEnd};
ghost use Rattle.sw_host.specs.Told.{Tells, Rose};
ghost use Rattle.sw_top.specs.Texts.{texts};
ghost use Rattle.sw_top.specs.Commands.{command_of};
ghost use Rattle.sw_top.specs.Ends.{line_of};
ghost use Rattle.sw_top.specs.Serves.{Performs, SaysLine, Serves};
ghost use Rattle.sw_top.specs.Outcome.{Outcome};
ghost use Rattle.sw_top.specs.Headline.{AfterDone, AfterRan};

use crate::End;
use crate::command::{Command, command_of};
use crate::end::line_of;
use crate::laws::command_laws;
use crate::rewriting::perform_rewrite;
use crate::running::perform_run;
use elf_image::image_laws;
use std::alloc::Global;
use sw_host::{Host, host_laws};

/// Serves the command that the words spell: makes its calls of the host, and says the line of its end, where that has one. A
/// line that fails changes nothing. Words that spell no command are answered `Usage`, with its line alone. Memory can be
/// wanting at any call of the host from the first on; what was stored before stays.
pub fn sw<H: Host>(alloc: Global, words: &[String], host: &mut H) -> End
    ensures serves { Tells (H.told host.old) (H.told host.new) (Serves (command_of (texts words.now)) result) }
    // The answer, the files, the number of calls and the line.
    ensures outcome { Tells (H.told host.old) (H.told host.new)
        (Outcome (command_of (texts words.now)) result (Rose (H.faults host.old) (H.faults host.new))) }
    // After Done the run of the written file agrees with that of the old one.
    ensures headline { result ≡ End.Done → Tells (H.told host.old) (H.told host.new) (AfterDone (command_of (texts words.now))) }
    // After Ran the run of the image of IN has that end, over what the host gave.
    ensures ran { (e : RunEnd) → result ≡ End.Ran e → Tells (H.told host.old) (H.told host.new) (AfterRan (command_of (texts words.now)) e) }
    // The words spell no command exactly where this is the answer, whatever the host.
    ensures usage { (result ≡ End.Usage) ↔ (command_of (texts words.now) ≡ None) }
    // A call of the host failed, as its count of faults shows.
    ensures cause { result ≡ End.Host → Rose (H.faults host.old) (H.faults host.new) }
{
    command_laws();
    image_laws();
    host_laws();
    let Some(command) = command_of(words) else {
        report(&End::Usage, host);
        return End::Usage;
    };
    let end = perform(alloc, &command, host);
    report(&end, host);
    end
}

// Makes the calls of a command.
fn perform<H: Host>(alloc: Global, command: &Command, host: &mut H) -> End
    ensures performs { Tells (H.told host.old) (H.told host.new) (Performs command.now result) }
    ensures cause { result ≡ End.Host → Rose (H.faults host.old) (H.faults host.new) }
    ensures form { result ≡ End.Usage → ⊥ }
{
    match command {
        Command::Rewrite(names) => perform_rewrite(alloc, names, host),
        Command::Run(running) => perform_run(alloc, running, host),
    }
}

// Says the line of an end, where it has one.
fn report<H: Host>(end: &End, host: &mut H)
    ensures says { Tells (H.told host.old) (H.told host.new) (SaysLine (line_of end.now)) }
    ensures faults { H.faults host.old ≤ H.faults host.new }
{
    if let Some(text) = line_of(end) {
        let _ = host.line(text.as_str());
    }
}
