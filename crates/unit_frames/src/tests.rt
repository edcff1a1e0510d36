// What no clause says: that frames open with ample memory, and what a worked frame holds.
use crate::{FrameStart, OpenFrames, ReturnCheck, ReturnPlace};
use flag_ir::{Block, BlockList, FrameKind, LocalList, LocalSlot, Proc};
use mem_pages::Pages;
use std::alloc::{AllocError, Global};
use std::test::Fail;
use x86_values::{Byte, known, word_of};

const ESP0: u32 = 0x8000_1000;

// A procedure with eight bytes below esp at its entry, an argument word and a local of a byte.
fn worked_proc(alloc: Global, kind: FrameKind) -> Result<Proc, AllocError> {
    let slot = LocalSlot {
        offset: -4,
        size: 1,
    };
    let blocks: Vec<Block> = Vec::new(alloc);
    Ok(Proc {
        entry: 0x1000,
        kind,
        depth: 8,
        args: 1,
        locals: LocalList::new(Vec::from_array(alloc, [slot])?),
        blocks: BlockList::new(blocks),
    })
}

// A page on either side of esp, with the return word 0x04030201 and the argument word 0x08070605.
fn stack(alloc: Global) -> Result<Pages, AllocError> {
    let mut pages = Pages::new(alloc);
    pages.add_region(0x8000_0000, 0x8000_2000, true, Byte::Unspecified)?;
    match pages.fill(ESP0, &[1, 2, 3, 4, 5, 6, 7, 8]) {
        Ok(()) => Ok(pages),
        Err(_) => Err(AllocError),
    }
}

// The frames, of which the first is open; and whether it could be opened.
fn opened(
    alloc: Global,
    procs: &[Proc],
    height: u32,
    pages: &Pages,
) -> Result<(OpenFrames, bool), AllocError> {
    let mut frames = OpenFrames::new(alloc);
    if procs.is_empty() {
        return Ok((frames, false));
    }
    let start = FrameStart {
        proc: 0,
        height,
        ebp: word_of(7),
        back: None,
    };
    let is_open = frames.open(alloc, procs, start, ESP0, pages)?;
    Ok((frames, is_open))
}

#[test]
fn opens_a_guarded_frame(rt: HostRuntime) -> Result<(), Fail> {
    let procs = Vec::from_array(rt.alloc(), [worked_proc(rt.alloc(), FrameKind::Guarded)?])?;
    let pages = stack(rt.alloc())?;
    let (mut frames, is_open) = opened(rt.alloc(), procs.as_slice(), ESP0, &pages)?;
    assert!(rt; is_open);
    assert_eq!(rt; frames.reached(), 1);
    assert_eq!(rt; frames.near_load(ESP0 + 4, 4), Some(word_of(0x0807_0605)));
    assert_eq!(rt; frames.near_load(ESP0, 2), Some(word_of(0x0201)));
    assert_eq!(rt; frames.near_load(ESP0 + 5, 4), None);
    assert_eq!(rt; frames.near_load(ESP0 - 8, 1).is_some(), true);
    assert_eq!(rt; frames.near_load(ESP0 - 9, 1), None);
    assert!(rt; frames.near_store(ESP0 - 4, 4, word_of(9)));
    assert!(rt; !frames.near_store(ESP0 + 6, 4, word_of(9)));
    assert_eq!(rt; frames.get_place(4, -4), Some(word_of(9)));
    assert!(rt; frames.put_place(2, 4, word_of(0x0a0b)));
    assert_eq!(rt; frames.near_load(ESP0 + 4, 4), Some(word_of(0x0807_0a0b)));
    assert!(rt; !frames.put_place(4, 6, word_of(0)));
    assert_eq!(rt; known(frames.local(0)), None);
    frames.put_local(procs.as_slice(), 0, word_of(0x1234))?;
    assert_eq!(rt; frames.local(0), word_of(0x34));
    assert!(rt; frames.is_judged(ESP0, ESP0 + 7));
    assert!(rt; !frames.is_judged(ESP0, ESP0 + 8));
    Ok(())
}

#[test]
fn opens_others(rt: HostRuntime) -> Result<(), Fail> {
    let procs = Vec::from_array(rt.alloc(), [worked_proc(rt.alloc(), FrameKind::Sealed)?])?;
    let pages = stack(rt.alloc())?;
    let (frames, is_open) = opened(rt.alloc(), procs.as_slice(), ESP0, &pages)?;
    assert!(rt; is_open);
    assert_eq!(rt; frames.reached(), 0);
    assert_eq!(rt; frames.near_load(ESP0, 4), None);
    assert_eq!(rt; frames.get_place(4, 0), Some(word_of(0x0403_0201)));
    let (others, too_high) = opened(rt.alloc(), procs.as_slice(), ESP0 + 1, &pages)?;
    assert!(rt; !too_high);
    assert_eq!(rt; others.get_place(4, 0), None);
    let (deep, too_deep) = opened(rt.alloc(), procs.as_slice(), ESP0 - 4_194_300, &pages)?;
    assert!(rt; !too_deep);
    assert_eq!(rt; deep.reached(), 0);
    Ok(())
}

#[test]
fn closes_a_frame(rt: HostRuntime) -> Result<(), Fail> {
    let procs = Vec::from_array(rt.alloc(), [worked_proc(rt.alloc(), FrameKind::Guarded)?])?;
    let mut pages = stack(rt.alloc())?;
    let (mut frames, is_open) = opened(rt.alloc(), procs.as_slice(), ESP0, &pages)?;
    assert!(rt; is_open);
    assert_eq!(rt; frames.procedure(), Some(0));
    for proc in procs.as_slice() {
        assert!(rt; frames.holds_call(ESP0 - 8, proc));
        assert!(rt; !frames.holds_call(ESP0 - 7, proc));
    }
    assert!(rt; frames.put_place(2, 4, word_of(0x0a0b)));
    assert_eq!(rt; frames.check_return(word_of(7), &pages), ReturnCheck::Kept);
    assert_eq!(rt;
        frames.check_return(word_of(8), &pages),
        ReturnCheck::Changed
    );
    assert!(rt; frames.put_place(1, 0, word_of(9)));
    assert_eq!(rt;
        frames.check_return(word_of(7), &pages),
        ReturnCheck::Changed
    );
    let place = ReturnPlace {
        back: None,
        word: word_of(0x0403_0201),
    };
    assert_eq!(rt; frames.close(&mut pages)?, Some(place));
    assert_eq!(rt; pages.load(ESP0 + 4, 4), Some(word_of(0x0807_0a0b)));
    assert_eq!(rt; pages.load(ESP0, 4), Some(word_of(0x0403_0201)));
    assert_eq!(rt; frames.get_place(4, 0), None);
    assert_eq!(rt; frames.close(&mut pages)?, None);
    Ok(())
}
