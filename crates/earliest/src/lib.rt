// The earliest end of a sheet's plans, without a card.
#![tactic(auto)]

ghost use Rattle.std.specs.Prelude.{◌≡◌};
ghost use Rattle.planable.specs.Planable.{planable_refusal, work_after};
ghost use Rattle.earliest.specs.Earliest.{end_answer};

// What is answered: refusal 0 with the minute, or the number of the refusal with 0.
#[repr(C)]
#[derive(Drop)]
pub struct Earliest {
    pub refusal: u32,
    pub end: u16,
}

// The earliest end of all valid plans, or the first refusal of 1 to 9 and 19. Answered, the working memory is all zero; refused, it is as
// before.
pub fn earliest_end(sheet: &[u8], work: &mut [u8]) -> Earliest
    ensures answer { result ≡ end_answer sheet.now }
    ensures work { work.new ≡ work_after (planable_refusal sheet.now) work.old }
{
    match planable::front(sheet) {
        Ok(jobs) => Earliest {
            refusal: 0,
            end: search::earliest(work, &jobs),
        },
        Err(refusal) => Earliest {
            refusal: refusal.number(),
            end: 0,
        },
    }
}
