// A job from its text: its sections read, planned, and with as many numbers as it needs.
use crate::blocks::{ELEMENT_ROOM, answer_size, area, block_size, total};
use crate::sections::{self, Section, Sections};
use lister::LISTING_ROOM;
use plan::{JOB_WORDS, Job, Plan};
use program_lines::{say, say_front, say_number, say_refused};
use refusal::Refusal;
use share::Matrix;
use words::room;

// A planned job, and the sections of its text.
#[derive(Clone, Copy)]
pub(crate) struct Whole<'a> {
    pub(crate) job: Job,
    pub(crate) plan: Plan,
    pub(crate) sections: Sections<'a>,
}

// The job of the section JOB; where its numbers are too few or too many, their count is printed.
fn job_of(section: Section) -> Option<Job> {
    let Some((words, [])) = section.numbers.split_first_chunk() else {
        section.say_count(JOB_WORDS);
        return None;
    };
    Some(plan::job_of(words))
}

// Prints the number of a refusal; where points are too few or too many, the count of their section.
fn say_unplanned(refusal: Refusal, points: Section, hosts: u32) {
    match refusal {
        Refusal::Points => points.say_count(hosts as usize),
        _ => say_refused(refusal.number()),
    }
}

// The blocks of one kind for all hosts have too many elements for this program, which is printed. A table has no more.
fn is_too_large(job: Job, plan: Plan) -> bool {
    let size = block_size(Matrix::A, plan)
        .max(block_size(Matrix::B, plan))
        .max(answer_size(plan));
    let elements = total(job.hosts, size);
    if elements <= ELEMENT_ROOM {
        return false;
    }
    say_number(
        b"JOB TOO LARGE: its blocks for all hosts have ",
        elements as u64,
    );
    say(b" elements, at most 32768 fit\n");
    true
}

// The sections from A to B's masks have as many numbers as they need, and the answers a minute after each host; prints the first
// that has not.
fn has_all(job: Job, plan: Plan, sections: Sections) -> bool {
    sections.a.has(area(job.t, job.s))
        && sections.b.has(area(job.s, job.r))
        && sections
            .masks_a
            .has(total(job.xa, block_size(Matrix::A, plan)))
        && sections
            .masks_b
            .has(total(job.xb, block_size(Matrix::B, plan)))
        && sections.answers.has_minutes()
}

// Prints the lines of a plan, as the plan lister has them.
fn say_plan(hosts: u32, plan: Plan) {
    let mut lines = room::<u8, LISTING_ROOM>(0);
    let n = lister::list_plan(hosts, plan, &mut lines);
    say_front(&lines, n);
}

// Reads the sections of a text, plans its job and prints the plan; or prints what is wrong: with the text, the job's numbers, its
// size, or the count of a section.
pub(crate) fn prepare<'a>(text: &[u8], numbers: &'a mut [u32]) -> Option<Whole<'a>> {
    let sections = sections::read_sections(text, numbers)?;
    let job = job_of(sections.job)?;
    let plan = match plan::plan_job(job, sections.points.numbers) {
        Ok(plan) => plan,
        Err(refusal) => {
            say_unplanned(refusal, sections.points, job.hosts);
            return None;
        }
    };
    if is_too_large(job, plan) || !has_all(job, plan, sections) {
        return None;
    }
    say_plan(job.hosts, plan);
    Some(Whole {
        job,
        plan,
        sections,
    })
}
