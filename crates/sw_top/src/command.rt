// The commands, read off the words of a call.
ghost use Rattle.std.specs.Prelude.{◌≡◌, ◌≤◌};
ghost use Rattle.sw_top.specs.Texts.{texts};
ghost use Rattle.sw_top.specs.Stacks.{stack_size, greatest_stack};
ghost use Rattle.sw_top.specs.Commands.{rewrite_of, running_of, steps_of, run_steps_of, command_of};

use crate::stack::has_stack;
use itoa::Buffer;
use std::marker::Model;

/// The steps of `run`.
const PLAIN_STEPS: u64 = 50_000_000;

/// The most steps that `run-steps` allows.
const MOST_STEPS: u64 = 4_000_000_000;

/// The name of a file. Contracts see it as the list of its bytes.
#[derive(Drop)]
pub struct Name<'a> {
    text: &'a str,
}

impl<'a> Model for Name<'a> {
    ghost use Rattle.std.specs.Prelude.{List, ℕ};

    ghost Value = { List ℕ };

    ghost view = { λ n. n.text.now };
}

impl<'a> Name<'a> {
    fn new(text: &'a str) -> Name<'a>
        ensures { result ≡ text.now }
    {
        Name { text }
    }

    /// The name as text.
    pub fn as_str(&self) -> &'a str
        ensures { result.now ≡ self.now }
    {
        self.text
    }
}

/// The files of a rewriting: IN, OUT and MAP.
#[derive(Drop)]
pub struct Names<'a> {
    pub from: Name<'a>,
    pub to: Name<'a>,
    pub map: Name<'a>,
}

/// Words of a call that have a stack of at most 128 KiB. Contracts see them as the list of their bytes.
#[derive(Drop)]
pub struct Words<'a> {
    words: &'a [String],
}

impl<'a> Model for Words<'a> {
    ghost use Rattle.std.specs.Prelude.{List, ℕ, ◌≤◌};
    ghost use Rattle.sw_top.specs.Texts.{texts};
    ghost use Rattle.sw_top.specs.Stacks.{stack_size, greatest_stack};

    ghost Value = { List (List ℕ) };

    ghost view = { λ w. texts w.words.now };

    ghost invariant = { λ w. stack_size (texts w.words.now) ≤ greatest_stack };
}

impl<'a> Words<'a> {
    fn new(words: &'a [String]) -> Words<'a>
        requires { stack_size (texts words.now) ≤ greatest_stack }
        ensures { result ≡ texts words.now }
    {
        Words { words }
    }

    /// The words.
    pub fn as_slice(&self) -> &'a [String]
        ensures words { texts result.now ≡ self.now }
        ensures fits { stack_size self.now ≤ greatest_stack }
    {
        self.words
    }
}

/// A run: the file IN, the words from IN on, and the most steps that it may take.
#[derive(Drop)]
pub struct Running<'a> {
    pub from: Name<'a>,
    pub words: Words<'a>,
    pub steps: u64,
}

/// What the words of a call ask for.
#[derive(Drop)]
pub enum Command<'a> {
    Rewrite(Names<'a>),
    Run(Running<'a>),
}

/// The command that the words spell, or `None` where they spell none.
pub fn command_of(words: &[String]) -> Option<Command<'_>>
    ensures { result ≡ command_of (texts words.now) }
{
    let (first, rest) = words.split_first()?;
    if first.as_str() == "rewrite" {
        return rewrite_of(rest);
    }
    if first.as_str() == "run" {
        return running_of(PLAIN_STEPS, rest);
    }
    if first.as_str() == "run-steps" {
        return run_steps_of(rest);
    }
    None
}

// The rewriting of the three files that the words name, where OUT and MAP are different.
fn rewrite_of(words: &[String]) -> Option<Command<'_>>
    ensures { result ≡ rewrite_of (texts words.now) }
{
    let [from, to, map] = words else {
        return None;
    };
    let (from, to, map) = (from.as_str(), to.as_str(), map.as_str());
    if to == map {
        return None;
    }
    Some(Command::Rewrite(Names {
        from: Name::new(from),
        to: Name::new(to),
        map: Name::new(map),
    }))
}

// The run of the file that the first of the words names, where their stack is small enough.
fn running_of(steps: u64, words: &[String]) -> Option<Command<'_>>
    ensures { result ≡ running_of steps (texts words.now) }
{
    let (from, _) = words.split_first()?;
    if !has_stack(words) {
        return None;
    }
    Some(Command::Run(Running {
        from: Name::new(from.as_str()),
        words: Words::new(words),
        steps,
    }))
}

// The same, where the first of the words says the steps.
fn run_steps_of(words: &[String]) -> Option<Command<'_>>
    ensures { result ≡ run_steps_of (texts words.now) }
{
    let (number, words) = words.split_first()?;
    running_of(steps_of(number.as_str())?, words)
}

// The number of steps that the text says. It is read as any number is, and has to be how that number is written.
fn steps_of(text: &str) -> Option<u64>
    ensures { result ≡ steps_of text.now }
{
    let steps = text.parse::<u64>().ok()?;
    if steps <= MOST_STEPS && Buffer::new().format(steps) == text {
        Some(steps)
    } else {
        None
    }
}
