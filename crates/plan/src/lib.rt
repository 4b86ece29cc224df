// Planning: a job's numbers and points are tested, and the layout and the number of answers needed are worked out.
#![tactic(auto)]

ghost use Rattle.std.specs.Prelude.{◌≡◌};
ghost use Rattle.refusal.specs.Chain.{first, answered};
ghost use Rattle.plan.specs.Words.{job_of};
ghost use Rattle.plan.specs.Planning.{
  parameters,
  prime,
  needed_of,
  range_tests,
  fit_tests,
  member,
  point_tests,
  planned,
  table_job,
};

use field::Modulus;
use layout::{Layout, Parameters};
use refusal::{Refusal, any_outside, outside, over_block, sizes_outside};

// A job: eleven public numbers and a window. A is t by s and B is s by r; A is cut into m by p blocks, B into p by n; xa and xb
// are the largest groups kept ignorant of A and of B; number is the job number. Answers are taken from the minute opening on and
// up to the one before the minute closing.
#[derive(Clone, Copy)]
pub struct Job {
    pub modulus: u32,
    pub t: u32,
    pub s: u32,
    pub r: u32,
    pub m: u32,
    pub p: u32,
    pub n: u32,
    pub xa: u32,
    pub xb: u32,
    pub hosts: u32,
    pub number: u32,
    pub opening: u32,
    pub closing: u32,
}

// How many words a job has.
pub const JOB_WORDS: usize = 13;

// The job of its words, in the order of its fields.
#[tactic(auto, unfolding(crate::specs::Words::job_of))]
pub fn job_of(words: &[u32; JOB_WORDS]) -> Job
    ensures { result ≡ job_of words.now }
{
    Job {
        modulus: words[0],
        t: words[1],
        s: words[2],
        r: words[3],
        m: words[4],
        p: words[5],
        n: words[6],
        xa: words[7],
        xb: words[8],
        hosts: words[9],
        number: words[10],
        opening: words[11],
        closing: words[12],
    }
}

// A job's public numbers without a window.
// Stays: no part of Job, since `range_tests`, `Facts` and the like name `job.t`, and `table_job` says what each number becomes.
#[derive(Clone, Copy)]
pub struct Table {
    pub modulus: u32,
    pub t: u32,
    pub s: u32,
    pub r: u32,
    pub m: u32,
    pub p: u32,
    pub n: u32,
    pub xa: u32,
    pub xb: u32,
    pub hosts: u32,
    pub number: u32,
}

// What an accepted job has: its modulus, its layout with the cuts and group sizes, the sizes of its blocks (an A block is
// rows by inner, a B block inner by columns, an answer rows by columns), and the number of answers needed.
#[derive(Clone, Copy)]
pub struct Plan {
    pub modulus: Modulus,
    pub layout: Layout,
    pub parameters: Parameters,
    pub rows: u32,
    pub inner: u32,
    pub columns: u32,
    pub needed: u32,
}

// The largest numbers of cuts and of a group (01, "The job").
const MOST_CUTS: u32 = 8;

const MOST_GROUP: u32 = 16;

// Tests 2 to 4: each number by itself.
#[tactic(auto, using(crate::proofs::Tested::tested), unfolding(crate::specs::Planning::range_tests, refusal::specs::Numbers::refusal_of, refusal::specs::Numbers::sheet))]
fn check_ranges(job: Job) -> Result<(), Refusal>
    ensures { result ≡ answered (range_tests job) tt }
{
    if sizes_outside(job.t, job.s, job.r) {
        return Err(Refusal::Size);
    }
    if any_outside(MOST_CUTS, job.m, job.p, job.n) {
        return Err(Refusal::Cuts);
    }
    if outside(1, MOST_GROUP, job.xa) | outside(1, MOST_GROUP, job.xb) {
        return Err(Refusal::Groups);
    }
    Ok(())
}

// Tests 5 to 8, and 29: the numbers together. q is the job's prime, and needed its number of answers needed.
#[tactic(auto, using(crate::proofs::Ranges::ranged))]
fn check_fit(job: Job, q: u32, needed: u32) -> Result<(), Refusal>
    requires job_value { first (range_tests job) ≡ 0 }
    requires q_value { q ≡ prime job }
    requires needed_value { needed ≡ needed_of job }
    ensures { result ≡ answered (fit_tests job) tt }
{
    if (job.t % job.m != 0) | (job.s % job.p != 0) | (job.r % job.n != 0) {
        return Err(Refusal::Division);
    }
    if over_block(job.t / job.m, job.s / job.p, job.r / job.n) {
        return Err(Refusal::Block);
    }
    if outside(1, refusal::MOST_HOSTS, job.hosts) | (q <= job.hosts) {
        return Err(Refusal::Hosts);
    }
    if job.hosts < needed {
        return Err(Refusal::Needed);
    }
    if job.closing <= job.opening {
        return Err(Refusal::Window);
    }
    Ok(())
}

// Whether x stands among the points. The loop has no early end, so that several points can be compared at once.
#[tactic(auto, using(crate::proofs::Points::member_more), unfolding(crate::specs::Planning::member))]
fn stands_in(x: u32, points: &[u32]) -> bool
    ensures { result ≡ member x points.now }
{
    let mut found = false;
    for y in points {
        found = found | (x == *y);
    }
    found
}

// Tests 9 to 11: the points, one by one.
fn check_points(q: u32, hosts: u32, points: &[u32]) -> Result<(), Refusal>
    ensures { result ≡ answered (point_tests q hosts points.now) tt }
{
    if points.len() != hosts as usize {
        return Err(Refusal::Points);
    }
    for (i, &x) in points.iter().enumerate() {
        if (x == 0) | (q <= x) {
            return Err(Refusal::Point);
        }
        if stands_in(x, &points[..i]) {
            return Err(Refusal::RepeatedPoint);
        }
    }
    Ok(())
}

// The job's cuts and group sizes, which are small once tests 3 and 4 have passed.
#[tactic(auto, using(crate::proofs::Ranges::ranged), unfolding(crate::specs::Planning::parameters))]
fn parameters_of(job: Job) -> Parameters
    requires { first (range_tests job) ≡ 0 }
    ensures { result ≡ parameters job }
{
    Parameters {
        m: job.m as u8,
        p: job.p as u8,
        n: job.n as u8,
        xa: job.xa as u8,
        xb: job.xb as u8,
    }
}

// Plans a job: its layout and the number of answers needed, or the first refusal whose test fits.
pub fn plan_job(job: Job, points: &[u32]) -> Result<Plan, Refusal>
    ensures { result ≡ planned job points.now }
{
    let modulus = Modulus::try_from(job.modulus)?;
    check_ranges(job)?;
    let g = parameters_of(job);
    let layout = layout::choose(g);
    let needed = layout::needed(layout, g);
    let q = field::prime_of(modulus);
    check_fit(job, q, needed)?;
    check_points(q, job.hosts, points)?;
    Ok(Plan {
        modulus,
        layout,
        parameters: g,
        rows: job.t / job.m,
        inner: job.s / job.p,
        columns: job.r / job.n,
        needed,
    })
}

// The job of a table, with a window that no test of a plan sees: it opens at the minute 0 and closes at 1.
// Stays: a `From` would not tell that a window is made up.
#[tactic(auto, unfolding(crate::specs::Planning::table_job))]
pub fn table_job(table: Table) -> Job
    ensures { result ≡ table_job table }
{
    Job {
        modulus: table.modulus,
        t: table.t,
        s: table.s,
        r: table.r,
        m: table.m,
        p: table.p,
        n: table.n,
        xa: table.xa,
        xb: table.xb,
        hosts: table.hosts,
        number: table.number,
        opening: 0,
        closing: 1,
    }
}
