// The call about the use of the cabinet in the plan of a sheet.
#![tactic(auto)]

ghost use Rattle.std.specs.Prelude.{◌≡◌};
ghost use Rattle.planable.specs.Planable.{work_after};
ghost use Rattle.checking.specs.Refusals.{number_of};
ghost use Rattle.usage.specs.Usage.{no_usage, use_refusal, usage};

use checking::Refusal;
use occupancy::Usage;

// What a refused call answers.
fn refused(refusal: Refusal) -> Usage
    ensures { result ≡ no_usage (number_of refusal) }
{
    Usage {
        refusal: refusal.number(),
        per_mille: 0,
        remainder: 0,
    }
}

// The use of the cabinet in the plan of a sheet, or the first refusal of 1 to 9, 19 and 23. Answered, the working memory is all zero;
// refused, it is as before.
pub fn used(sheet: &[u8], work: &mut [u8]) -> Usage
    ensures answer { result ≡ usage sheet.now }
    ensures work { work.new ≡ work_after (use_refusal sheet.now) work.old }
{
    let jobs = match planable::front(sheet) {
        Ok(jobs) => jobs,
        Err(refusal) => return refused(refusal),
    };
    if jobs.count() == 0 {
        return refused(Refusal::NoJobs);
    }
    let end = search::earliest(work, &jobs);
    let occupied = occupancy::work_of(&jobs);
    occupancy::share(occupied, counting::times(jobs.modules(), end))
}
