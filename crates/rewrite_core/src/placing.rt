// The placing of what a run can reach: the parts of the new code, and the new place of each old one.
ghost use Rattle.std.specs.Prelude.{◌≡◌, ◌+◌, ◌^◌, ◌<◌, length, IfOk, OnOk, MatchOption};
ghost use Rattle.rewrite_core.specs.Places.{IsLeftOut};
ghost use Rattle.rewrite_core.specs.Placing.{part_size, IsSettled, IsOpenPlace, IsAdded, IsPlaced, FollowsPlaces, MeetsPlaces, IsFinished};

use crate::places::{Judgement, judged_at};
use std::alloc::{AllocError, Global};
use x86_grammar::front_laws;

/// A part of the new code: bytes of the page, a jump to the new place of a place, or a stop.
#[derive(Clone, Copy, Debug)]
pub enum Part {
    Kept { from: usize, len: usize },
    Leads(usize),
    Stops,
}

/// The new place of each place that has one, the parts of the new code so far, and how many bytes they have.
#[derive(Drop)]
pub struct Placing {
    pub places: Vec<Option<u32>>,
    pub parts: Vec<Part>,
    pub size: usize,
}

/// Where the run goes on after a place is placed: at a place that has no new place yet, or nowhere more; or that place isn't
/// taken yet.
#[derive(Clone, Copy, Debug)]
pub enum Next {
    On(usize),
    Done,
    Refused,
}

fn part_size(part: Part) -> usize
    ensures { result ≡ part_size part }
{
    match part {
        Part::Kept { len, .. } => len,
        Part::Leads(_) => 5,
        Part::Stops => 2,
    }
}

impl Placing {
    // One more part, at the end.
    fn add(&mut self, part: Part) -> Result<(), AllocError>
        requires { self.old.size + part_size part < 2 ^ 32 }
        ensures { OnOk result (IsAdded self.old self.new part) }
    {
        self.parts.push(part)?;
        self.size += part_size(part);
        Ok(())
    }

    // Places a place at the end of the new code.
    fn place(&mut self, page: &[u8], at: usize) -> Result<Next, AllocError>
        requires page { length page.now ≡ 4096 }
        requires opened { IsOpenPlace page.now self.old at }
        ensures { IfOk result (λ next. IsPlaced page.now self.old self.new at next) }
    {
        front_laws();
        let judgement = judged_at(page, at);
        self.places[at] = Some(self.size as u32);
        match judgement {
            Judgement::GoesOn(len) => {
                self.add(Part::Kept { from: at, len })?;
                let next = at + len;
                if self.places[next].is_none() {
                    return Ok(Next::On(next));
                }
                self.add(Part::Leads(next))?;
                Ok(Next::Done)
            }
            Judgement::Jumps(to) => {
                self.add(Part::Leads(to))?;
                Ok(Next::Done)
            }
            Judgement::Ends => {
                self.add(Part::Stops)?;
                Ok(Next::Done)
            }
            Judgement::LeftOut => Ok(Next::Refused),
        }
    }

    // Places a place, and those to which the run goes on from it, up to a jump or a place that is placed already. False where
    // one of them isn't taken yet.
    fn follow(&mut self, page: &[u8], from: usize) -> Result<bool, AllocError>
        requires page { length page.now ≡ 4096 }
        requires opened { IsOpenPlace page.now self.old from }
        ensures { IfOk result (λ all. FollowsPlaces page.now self.old self.new from all) }
    {
        let mut at = from;
        'run: loop {
            match self.place(page, at)? {
                Next::On(next) => at = next,
                Next::Done => return Ok(true),
                Next::Refused => return Ok(false),
            }
        }
    }

    // Places that to which a part leads, if it isn't placed yet.
    fn follow_part(&mut self, page: &[u8], index: usize) -> Result<bool, AllocError>
        requires page { length page.now ≡ 4096 }
        requires index { index < length self.old.parts.items }
        requires settled { IsSettled page.now self.old }
        ensures { IfOk result (λ all. MeetsPlaces page.now self.old self.new index all) }
    {
        let Part::Leads(to) = self.parts[index] else {
            return Ok(true);
        };
        if self.places[to].is_some() {
            return Ok(true);
        }
        self.follow(page, to)
    }
}

/// The parts and places of the new code of a page, or nothing where a run can reach a place that isn't taken yet.
pub fn placing_of(alloc: Global, page: &[u8]) -> Result<Option<Placing>, AllocError>
    requires { length page.now ≡ 4096 }
    ensures { IfOk result (λ found. MatchOption found (IsLeftOut page.now) (IsFinished page.now)) }
{
    let places = vec![in alloc; None; 4097]?;
    let mut placing = Placing {
        places,
        parts: Vec::new(alloc),
        size: 0,
    };
    if !placing.follow(page, 0)? {
        return Ok(None);
    }
    let mut index = 0;
    while index < placing.parts.len() {
        if !placing.follow_part(page, index)? {
            return Ok(None);
        }
        index += 1;
    }
    Ok(Some(placing))
}
