// Jobs for a break and a checker of plans for them: whether every job ends by the end of the break and no two jobs of one bench overlap. Jobs come
// as words, two a job: its bench, and its length in ticks. A plan is one start tick a job, in the jobs' order, counted from the start of the break;
// `end` is the tick at which the break ends, its length. The checker takes any words: specs/Checker.antt says what it answers.
#![tactic(auto)]

ghost use Rattle.std.specs.Prelude.{◌≡◌, true, ◌+◌, ◌*◌, ◌<◌, ◌≤◌, length};
ghost use Rattle.model.specs.Lists.{All, every};
ghost use Rattle.plans.specs.Plans.{jobs_of, job_within, jobs_within, within_limits, booked, overlap, clear_of, accepts};
ghost use Rattle.plans.specs.Checker.{status_of, checked};
ghost use Rattle.plans.specs.Parts.{job_at, booked_at, booked_from};

use model::Status;

// A job: its bench, and its length in ticks.
#[derive(Clone, Copy, Debug, PartialEq, Eq)]
pub struct Job {
    pub bench: u32,
    pub ticks: u32,
}

// A bench is taken from tick `from` until tick `to`, at which it is free again.
#[derive(Clone, Copy, Debug, PartialEq, Eq)]
pub struct Booking {
    pub bench: u32,
    pub from: u64,
    pub to: u64,
}

// The words of a job.
pub const JOB: usize = 2;

pub const MOST_JOBS: usize = 64;

const MOST_WORDS: usize = JOB * MOST_JOBS;

const LAST_BENCH: u32 = 4;

// The length of an array with a place for each bench, by its number; place 0 is no bench's.
pub const BENCHES: usize = 5;

// The longest job, and the longest break.
const LONGEST: u32 = 1000000;

// Job i, counted from 0.
fn job_at(jobs: &[u32], i: usize) -> Job
    requires { 2 * i + 1 < length jobs.now }
    ensures { result ≡ job_at jobs.now i }
{
    let at = JOB * i;
    Job {
        bench: jobs[at],
        ticks: jobs[at + 1],
    }
}

// The numbers of a job are within their limits.
#[tactic(auto, unfolding(crate::specs::Plans::job_within))]
fn job_within(job: Job) -> bool
    ensures { result ≡ job_within job }
{
    (1..=LAST_BENCH).contains(&job.bench) && (1..=LONGEST).contains(&job.ticks)
}

// So are those of every job, each of two words, and there are not too many. (Two guards and a `for`: their answers would have to take a join by `||`
// apart, and a chain's closure to show at each turn that a job has both its words.)
fn jobs_within(jobs: &[u32]) -> bool
    ensures { result ≡ jobs_within jobs.now }
{
    if jobs.len() % JOB != 0 {
        return false;
    }
    if MOST_WORDS < jobs.len() {
        return false;
    }
    for i in 0..jobs.len() / JOB {
        if !job_within(job_at(jobs, i)) {
            return false;
        }
    }
    true
}

// The break is within its limit, and so are the jobs.
pub fn within_limits(jobs: &[u32], end: u32) -> bool
    ensures { result ≡ within_limits jobs.now end }
{
    end <= LONGEST && jobs_within(jobs)
}

// The two are of one bench, and each starts before the other ends.
fn overlaps(p: Booking, q: Booking) -> bool
    ensures { result ≡ overlap p q }
{
    p.bench == q.bench && p.from < q.to && q.from < p.to
}

// A plan for jobs that are within their limits, good or not: the jobs' words, and one start a job.
#[derive(Clone, Copy, Debug, PartialEq, Eq)]
struct Plan<'p> {
    jobs: &'p [u32],
    starts: &'p [u32],
    ghost within: { jobs_within jobs.now ≡ true },
    ghost one_each: { length starts.now ≡ length (jobs_of jobs.now) },
}

impl<'p> Plan<'p> {
    // Job i at its start.
    #[tactic(auto, using(crate::proofs::Limits::pairs))]
    fn booked_at(self, i: usize) -> Booking
        requires { i < length self.starts.now }
        ensures { result ≡ booked_at self.entry.jobs.now self.entry.starts.now i }
    {
        let job = job_at(self.jobs, i);
        let from = u64::from(self.starts[i]);
        Booking {
            bench: job.bench,
            from,
            to: from + u64::from(job.ticks),
        }
    }

    // None of the jobs from job k on overlaps p. None of p's bench starts before `earliest`, so that no search is needed where p ends by then.
    fn clear_of(self, k: usize, p: Booking, earliest: u64) -> bool
        requires { All (λ q. p.bench ≡ q.bench → earliest ≤ q.from) (booked_from self.jobs.now self.starts.now k) }
        ensures { result ≡ every (clear_of p) (booked_from self.entry.jobs.now self.entry.starts.now k) }
    {
        if p.to <= earliest {
            return true;
        }
        for j in k..self.starts.len() {
            if overlaps(p, self.booked_at(j)) {
                return false;
            }
        }
        true
    }

    // Every job ends by the end of the break and no two of one bench overlap. The jobs are taken from the last to the first; `earliest` has the
    // earliest start so far of each bench, so that jobs which stand in the order of their starts need no search.
    fn all_fit(self, end: u32) -> bool
        ensures { result ≡ accepts end (booked (jobs_of self.entry.jobs.now) self.entry.starts.now) }
    {
        let limit = u64::from(end);
        let mut earliest = [limit; BENCHES];
        for i in (0..self.starts.len()).rev() {
            let p = self.booked_at(i);
            if limit < p.to {
                return false;
            }
            // (an index is a `usize`, which has no `From` of 32 bits)
            let bench = p.bench as usize;
            let next = earliest[bench];
            if !self.clear_of(i + 1, p, next) {
                return false;
            }
            if p.from < next {
                earliest[bench] = p.from;
            }
        }
        true
    }
}

// Whether a plan is good: there is one start a job, every job ends by the end of the break, and no two of one bench overlap. (Jobs and starts are any
// words here, as hc_plan_check has them; a `Plan` is made where they are known to fit each other.)
#[tactic(auto, using(crate::proofs::Verdicts::verdicts, crate::proofs::Limits::limits))]
pub fn check(jobs: &[u32], end: u32, starts: &[u32]) -> Result<(), Status>
    ensures { status_of result ≡ checked jobs.now end starts.now }
{
    if !within_limits(jobs, end) {
        return Err(Status::InvalidNumber);
    }
    if starts.len() != jobs.len() / JOB {
        return Err(Status::InvalidNumber);
    }
    let plan = Plan { jobs, starts };
    if !plan.all_fit(end) {
        return Err(Status::Unsatisfied);
    }
    Ok(())
}
