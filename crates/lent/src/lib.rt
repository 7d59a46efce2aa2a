// What opening and a look answer where firmware keeps the desk. Refused, opening hands the kept desk back.
#![tactic(auto)]

ghost use Rattle.std.specs.Prelude.{◌≡◌};
ghost use Rattle.lent.specs.Lent.{opened_over, looked_at};

use desk::{Booked, Desk};

// What a look answers beside the desk, which stays where it is kept: the refusal's number, or 0 and the largest claim that would be
// granted now.
#[repr(C)]
#[derive(Drop)]
pub struct Looked {
    pub refusal: u32,
    pub power: u32,
}

// Opening by value where a desk is kept: refused, the kept desk is handed back.
pub fn opened_over(kept: Desk, limit: u32, assured: &[u32], ceilings: &[u32]) -> Booked
    ensures { result ≡ opened_over kept limit assured.now ceilings.now }
{
    let new = opening::new_desk(limit, assured, ceilings);
    kept.answer(new)
}

// A look at a kept desk.
pub fn look_at(kept: Desk, controller: u32) -> Looked
    ensures { result ≡ looked_at kept controller }
{
    let answer = kept.look(controller);
    Looked {
        refusal: answer.refusal,
        power: answer.power,
    }
}
