// The task of a card file: now, budget, purpose and host, read where the verdicts end. What is done with them is left to the crates
// above.
#![tactic(auto)]

ghost use Rattle.std.specs.Prelude.{◌≡◌};
ghost use Rattle.fields.specs.Answers.{read, passed, passing};
ghost use Rattle.task.specs.Task.{purpose_p};
ghost use Rattle.task.specs.Placed.{times_p, task_p, fresh-host, fresh_task};

use fields::{Fault, Reading, Span, byte_at, count_at, string_at, u64_at};

// The host that is asked; none where its name has no bytes.
#[derive(Clone, Copy)]
pub struct Host {
    pub name: Span,
}

impl Host {
    pub const LEAST: usize = 0;

    pub const MOST: usize = 253;

    // No host.
    pub fn new() -> Host
        ensures { result ≡ fresh-host }
    {
        Host {
            name: Span::NOWHERE,
        }
    }
}

#[derive(Clone, Copy)]
pub struct Task {
    pub now: u64,
    pub budget: u64,
    pub host: Host,
}

impl Task {
    pub const COUNT: usize = 1;

    pub const SERVER: usize = 0;

    // Nothing asked.
    pub fn new() -> Task
        ensures { result ≡ fresh_task }
    {
        Task {
            now: 0,
            budget: 0,
            host: Host::new(),
        }
    }
}

// The task at a place.
#[tactic(auto, unfolding(crate::specs::Placed::task_p))]
pub fn task_at(file: &[u8], at: usize) -> Reading<Task>
    ensures { read result ≡ task_p file.now at }
{
    let ((now, budget), at) = times_at(file, at)?;
    let at = purpose_past(file, at)?;
    let name = string_at(file, at, Host::LEAST, Host::MOST)?;
    let task = Task {
        now,
        budget,
        host: Host { name },
    };
    Ok((task, name.end))
}

// The task's count, then now and budget.
#[tactic(auto, unfolding(crate::specs::Placed::times_p))]
fn times_at(file: &[u8], at: usize) -> Reading<(u64, u64)>
    ensures { read result ≡ times_p file.now at }
{
    let (_, at) = count_at(file, at, Task::COUNT, Task::COUNT)?;
    let (now, at) = u64_at(file, at)?;
    let (budget, next) = u64_at(file, at)?;
    Ok(((now, budget), next))
}

// A purpose is a bad value above the server's, judged when it is read. One purpose is known and nothing is kept of it, so it is no enum.
#[tactic(auto, unfolding(crate::specs::Task::purpose_p))]
fn purpose_past(file: &[u8], at: usize) -> Result<usize, Fault>
    ensures { passed result ≡ passing (purpose_p file.now at) }
{
    let (purpose, next) = byte_at(file, at)?;
    if purpose == Task::SERVER {
        return Ok(next);
    }
    Err(Fault::BadValue)
}
