// What no clause says: the text of an instruction. The table of instruction_table has every form.
use crate::InstrText;
use std::test::Fail;
use x86_types::{Address, Instr, Reg, Rm, Width};

#[test]
fn writes_names_and_fields(rt: HostRuntime) -> Result<(), Fail> {
    let at = Address {
        base: Some(Reg::Ebx),
        index: Some(Reg::Esi),
        scale: 4,
        disp: 0x10,
    };
    let instr = Instr::Movzx {
        wide: Width::Four,
        width: Width::One,
        to: Reg::Eax,
        from: Rm::Mem(at),
    };
    let text = format!(in rt.alloc(); "{}", InstrText(instr))?;
    assert_eq!(rt;
        text.as_str(),
        "Movzx wide=4 width=1 to=eax from=[ebx+esi*4+0x00000010]"
    );
    Ok(())
}
