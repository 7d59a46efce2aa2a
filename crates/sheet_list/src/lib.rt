// Writing a sheet from a lent list of job records: the records are copied into a list of fixed length, which `sheet` writes.
#![tactic(auto)]

ghost use Rattle.std.specs.Prelude.{◌≡◌, min, length};
ghost use Rattle.sheet_format.specs.Figures.{most_jobs};
ghost use Rattle.sheet_format.specs.Format.{jobs_in, cabinet};
ghost use Rattle.sheet.specs.Write.{write_answer, write_leaves};
ghost use Rattle.sheet_list.specs.Gather.{gathered};

use figures::MOST_JOBS;
use sheet::Written;
use sheet_format::Job;

// As many as there are places, at most.
fn at_most(count: usize) -> usize
    ensures { result ≡ min count most_jobs }
{
    count.min(MOST_JOBS)
}

// The records of the lent list, as many as there are places.
fn gather(jobs: &[Job]) -> [Job; MOST_JOBS]
    ensures { result ≡ gathered jobs.now }
{
    let count = at_most(jobs.len());
    let mut list = records::no_jobs();
    for i in 0..count {
        list[i] = jobs[i];
    }
    list
}

// Writes the sheet of a lent list of jobs into the front of the lent buffer; more jobs than there are places: refusal 2.
pub fn write_list(
    jobs: &[Job],
    labels: &[u8],
    modules: u16,
    changeover: u16,
    out: &mut [u8],
) -> Written
    ensures { (result ≡ write_answer (jobs_in jobs.now) (length jobs.now) labels.now
        (cabinet modules changeover) out.old)
        × (out.new ≡ write_leaves (jobs_in jobs.now) (length jobs.now) labels.now
        (cabinet modules changeover) out.old) }
{
    sheet::write(gather(jobs), jobs.len(), labels, modules, changeover, out)
}
