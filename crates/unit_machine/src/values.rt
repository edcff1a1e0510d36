// Registers, flags and temporaries.
ghost use Rattle.std.specs.Prelude.{◌≡◌, ◌<◌, ◌≤◌, length, OnOk};
ghost use Rattle.outside.specs.Environment.{Environment};
ghost use Rattle.memory.specs.Memory.{Memory};
ghost use Rattle.flag_ir.specs.Form.{IsTerm, IsVar};
ghost use Rattle.flag_ir.specs.Storage.{put_word, term_in};
ghost use Rattle.flag_ir.specs.UnitRun.{fresh};
ghost use Rattle.x86_values.specs.Sizes as sizes;
ghost use Rattle.unit_machine.specs.Standing.{Puts, registers_of, storage_of, words_of};
ghost use Rattle.x86_meaning.specs.Run.{first_registers};

use flag_ir::{Term, Var};
use std::alloc::{AllocError, Global};
use x86_values::{Byte, Word, word_of};

/// The registers, flags and temporaries of a unit, and esp at the start of its run. A temporary past the last one is unspecified.
#[derive(Drop)]
pub(crate) struct Values {
    pub regs: [Word; 8],
    pub flags: [Word; 5],
    pub temps: Vec<Word>,
    pub esp0: u32,
}

/// A word of which nothing is known.
pub(crate) fn no_word() -> Word
    ensures { result ≡ sizes.no_word }
{
    Word {
        b0: Byte::Unspecified,
        b1: Byte::Unspecified,
        b2: Byte::Unspecified,
        b3: Byte::Unspecified,
    }
}

// Adds unspecified words up to a length.
#[tactic(auto, using(crate::proofs::Words::words_none_pushed))]
fn lengthen(temps: &mut Vec<Word>, len: usize) -> Result<(), AllocError>
    requires { length temps.old.items ≤ len }
    ensures words { OnOk result (words_of temps.new.items ≡ words_of temps.old.items) }
    ensures len { OnOk result (length temps.new.items ≡ len) }
{
    for _ in temps.len()..len {
        temps.push(no_word())?;
    }
    Ok(())
}

// Makes a temporary another word.
#[tactic(auto, using(crate::proofs::Words::words_set, crate::proofs::Words::words_pushed))]
fn put_temp(temps: &mut Vec<Word>, n: usize, word: Word) -> Result<(), AllocError>
    ensures { OnOk result (words_of temps.new.items ≡ put_word n word (words_of temps.old.items)) }
{
    if n < temps.len() {
        temps[n] = word;
        return Ok(());
    }
    lengthen(temps, n)?;
    temps.push(word)?;
    Ok(())
}

impl Values {
    /// The word of a term.
    pub fn term(&self, term: Term) -> Word
        requires { IsTerm 0 term }
        ensures { (m : Memory) (left : Environment) → result ≡ term_in term (storage_of self.now m left) }
    {
        match term {
            Term::Word(n) => word_of(n),
            Term::Var(Var::Reg(n)) => self.regs[n as usize],
            Term::Var(Var::Flag(n)) => self.flags[n as usize],
            Term::Var(Var::Temp(n)) => match self.temps.as_slice().get(n as usize) {
                Some(word) => *word,
                None => no_word(),
            },
            Term::Var(Var::Local(_)) => no_word(),
        }
    }

    /// Makes a variable another word.
    #[tactic(auto, using(crate::proofs::Words::puts_register, crate::proofs::Words::puts_flag, crate::proofs::Words::puts_temp))]
    pub fn put(&mut self, to: Var, word: Word) -> Result<(), AllocError>
        requires { IsVar 0 to }
        ensures { OnOk result (Puts to word self.old self.new) }
    {
        match to {
            Var::Reg(n) => {
                self.regs[n as usize] = word;
                Ok(())
            }
            Var::Flag(n) => {
                self.flags[n as usize] = word;
                Ok(())
            }
            Var::Temp(n) => put_temp(&mut self.temps, n as usize, word),
            Var::Local(_) => Ok(()),
        }
    }

    /// Makes the temporaries unspecified.
    pub fn begin(&mut self)
        ensures { (m : Memory) (left : Environment) → storage_of self.new m left ≡ fresh (storage_of self.old m left) }
    {
        self.temps.clear();
    }
}

/// The values at the start of a run.
pub(crate) fn first_values(alloc: Global, esp0: u32) -> Values
    ensures regs { registers_of result.regs ≡ first_registers esp0 }
    ensures flags { words_of result.flags ≡ (λ k. sizes.no_word) }
    ensures temps { words_of result.temps.items ≡ (λ k. sizes.no_word) }
    ensures esp0 { result.esp0 ≡ esp0 }
{
    let zero = word_of(0);
    let none = no_word();
    Values {
        regs: [zero, zero, zero, zero, word_of(esp0), zero, zero, zero],
        flags: [none, none, none, none, none],
        temps: Vec::new(alloc),
        esp0,
    }
}
