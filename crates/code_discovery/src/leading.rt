// Where an instruction leads.
ghost use Rattle.std.specs.Prelude.{◌≡◌, ◌+◌, ◌≤◌};
ghost use Rattle.image.specs.declared.room.Room.TheVariants.{Any};
ghost use Rattle.image.specs.Rooms.{room_end};
ghost use Rattle.plan_types.specs.Leading as spec;
ghost use Rattle.code_discovery.specs.Single.{single};

use code_scan::IndexedImage;
use plan_types::Place;
use x86_types::{Instr, Src, Width};

// The address behind an instruction.
pub(crate) fn next_of(place: &Place) -> u32
    requires { place.now.at + place.now.len ≤ room_end Any }
    ensures { result ≡ spec.next_of place.now }
{
    place.at + u32::from(place.len)
}

// The target of a displacement, modulo 2^32.
fn target_of(place: &Place, by: u32) -> u32
    ensures { result ≡ spec.target_of place.now by }
{
    ((u64::from(place.at) + u64::from(place.len) + u64::from(by)) % 0x1_0000_0000) as u32
}

// The leader beside the next instruction.
pub(crate) fn leader_of(place: &Place) -> Option<u32>
    requires { place.now.at + place.now.len ≤ room_end Any }
    ensures { single result ≡ spec.leaders_of place.now }
{
    match place.instr {
        Instr::Jmp { by } => Some(target_of(place, by)),
        Instr::Jcc { by, .. } => Some(target_of(place, by)),
        Instr::Call { .. } => Some(next_of(place)),
        Instr::CallTo { .. } => Some(next_of(place)),
        _ => None,
    }
}

// An address, where its byte can be run.
fn if_code(scan: &IndexedImage, at: u32) -> Option<u32>
    ensures { single result ≡ spec.if_code scan.now at }
{
    if scan.can_run(at) { Some(at) } else { None }
}

// The procedure that an instruction names.
pub(crate) fn procedure_of(scan: &IndexedImage, place: &Place) -> Option<u32>
    ensures { single result ≡ spec.procedures_of scan.now place.now }
{
    match place.instr {
        Instr::Call { by } => Some(target_of(place, by)),
        Instr::Mov {
            width: Width::Four,
            from: Src::Imm(n),
            ..
        } => if_code(scan, n),
        Instr::Push { from: Src::Imm(n) } => if_code(scan, n),
        Instr::Lea { at, .. } if at.base.is_none() && at.index.is_none() => if_code(scan, at.disp),
        _ => None,
    }
}
