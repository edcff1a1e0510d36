ghost use Rattle.x86_meaning.specs.AluRows.{AddRows, CarryRows, CmpRows, SubRows};
ghost use Rattle.x86_meaning.specs.LogicRows.{IncRows, LogicRows, NotRows, TestRows};

/// Does nothing: its clauses are worked steps of ADD, ADC, SBB, SUB and CMP, computed.
#[tactic(auto, using(crate::proofs::AluRows::add_rows, crate::proofs::AluRows::carry_rows, crate::proofs::AluRows::sub_rows, crate::proofs::AluRows::cmp_rows))]
pub fn worked_sum_steps()
    ensures add { AddRows }
    ensures carry { CarryRows }
    ensures sub { SubRows }
    ensures cmp { CmpRows }
{}

/// Does nothing: its clauses are worked steps of AND, OR, XOR, TEST, INC, DEC, NOT and NEG, computed.
#[tactic(auto, using(crate::proofs::LogicRows::logic_rows, crate::proofs::LogicRows::test_rows, crate::proofs::LogicRows::inc_rows, crate::proofs::LogicRows::not_rows))]
pub fn worked_bit_steps()
    ensures logic { LogicRows }
    ensures test { TestRows }
    ensures inc { IncRows }
    ensures not { NotRows }
{}
