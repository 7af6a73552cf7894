// A planner for the jobs of a break: it proposes a plan, back to back on each bench, asks the checker, and writes it into the list that it is lent.
// It takes any words: specs/Planner.antt says what it answers, and that it refuses with 13 exactly if no plan is accepted.
#![tactic(auto)]

ghost use Rattle.std.specs.Prelude.{◌≡◌, true, ◌++◌, ◌≤◌, length, take, drop};
ghost use Rattle.plans.specs.Plans.{jobs_of, jobs_within};
ghost use Rattle.plans.specs.Checker.{status_of};
ghost use Rattle.planner.specs.Proposal.{proposal};
ghost use Rattle.planner.specs.Planner.{outcome_of, planned, Exact};

use model::Status;
use plans::{BENCHES, JOB, MOST_JOBS, check, within_limits};

// The plan back to back, in one pass: `ends` has for each bench where its last job ends. (An array with a place for each job that there may be, since
// there is no heap; the bench is a cast, since an index is a `usize`, which has no `From` of 32 bits.)
#[tactic(auto, using(crate::proofs::Proposing::jobs))]
fn propose(jobs: &[u32]) -> [u32; MOST_JOBS]
    requires { jobs_within jobs.now ≡ true }
    ensures { take (length (jobs_of jobs.now)) result ≡ proposal jobs.now }
{
    let n = jobs.len() / JOB;
    let mut starts = [0u32; MOST_JOBS];
    let mut ends = [0u32; BENCHES];
    for i in 0..n {
        let at = JOB * i;
        let bench = jobs[at] as usize;
        let start = ends[bench];
        starts[i] = start;
        ends[bench] = start + jobs[at + 1];
    }
    starts
}

// The first words of the list become the starts.
fn store(list: &mut [u32], starts: &[u32])
    requires { length starts.now ≤ length list.old }
    ensures { list.new ≡ starts.now ++ drop (length starts.now) list.old }
{
    list[..starts.len()].copy_from_slice(starts);
}

// Proposes a plan, through the checker: the starts go into the first words of the list, which stays as it is where there is no plan.
#[tactic(auto, using(plans::proofs::Limits::limits))]
pub fn plan(jobs: &[u32], end: u32, list: &mut [u32]) -> Result<(), Status>
    ensures outcome { outcome_of result list.new ≡ planned jobs.now end list.old }
    ensures exact { Exact jobs.now end list.old (status_of result) list.new }
{
    if !within_limits(jobs, end) {
        return Err(Status::InvalidNumber);
    }
    let n = jobs.len() / JOB;
    if list.len() < n {
        return Err(Status::InvalidSize);
    }
    let starts = propose(jobs);
    let proposal = &starts[..n];
    check(jobs, end, proposal)?;
    store(list, proposal);
    Ok(())
}
