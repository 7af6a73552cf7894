// The checker and the planner for C: the prototypes of include/heathcinder.h. A slice is a pointer and a length there. Each call gives its status as
// the result. The contracts are the checker's and the planner's own. (The parameters are those of include/heathcinder.h.)
#![tactic(auto)]

ghost use Rattle.std.specs.Prelude.{◌≡◌};
ghost use Rattle.plans.specs.Checker.{checked};
ghost use Rattle.planner.specs.Planner.{exported, planned, Exact};

use answers::status_of;

#[unsafe(no_mangle)]
pub extern "C" fn hc_plan_check(jobs: &[u32], end: u32, starts: &[u32]) -> u32
    ensures { result ≡ checked jobs.now end starts.now }
{
    status_of(plans::check(jobs, end, starts))
}

#[unsafe(no_mangle)]
pub extern "C" fn hc_plan(jobs: &[u32], end: u32, starts: &mut [u32]) -> u32
    ensures outcome { exported result starts.new ≡ planned jobs.now end starts.old }
    ensures exact { Exact jobs.now end starts.old result starts.new }
{
    status_of(planner::plan(jobs, end, starts))
}
