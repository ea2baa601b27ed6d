// Hazards put in and taken out.
ghost use Rattle.std.specs.Prelude.{◌≡◌, true, [], ◌≤◌, ◌<◌};
ghost use Rattle.job.specs.Job.{counted};
ghost use Rattle.open_memory.specs.Memory.{standing, laid_out, is_open_job, stands};
ghost use Rattle.open_memory.specs.Steps.{ZerosAfter, rank, put_at, taken_at};

use job::{Header, NamedHazard, StoredJob, UNUSED};

// The header with another hazard count.
pub fn with_count(h: Header, n: u64) -> Header
    ensures { result ≡ counted h n }
{
    let mut next = h;
    next.count = n;
    next
}

// A header, and no hazard.
pub fn empty_state(header: Header) -> StoredJob
    ensures { result ≡ laid_out header [] }
{
    StoredJob {
        header: with_count(header, 0),
        hazards: [UNUSED; 256],
    }
}

// How many of the names that stand are below a name: where it stands, or is to be put.
pub fn place_of(job: StoredJob, name: u16) -> usize
    requires { job.header.count ≤ 256 }
    ensures { result ≡ rank name (standing job) }
{
    let header = job.header;
    let count = header.count as usize;
    for i in 0..count {
        if name <= job.hazards[i].name {
            return i;
        }
    }
    count
}

// Does the name stand, at the one place where it could.
pub fn stands_at(job: StoredJob, at: usize, name: u16) -> bool
    requires job_open { is_open_job job ≡ true }
    requires at_rank { at ≡ rank name (standing job) }
    ensures { result ≡ stands name (standing job) }
{
    let header = job.header;
    if at < header.count as usize {
        let p = job.hazards[at];
        return p.name == name;
    }
    false
}

// A hazard put in at a place; each one from there on moves up, the last one first.
pub fn put_in(job: StoredJob, at: usize, new: NamedHazard) -> StoredJob
    requires zeros_after { ZerosAfter job }
    requires count_bound { job.header.count < 256 }
    requires at_le_count { at ≤ job.header.count }
    ensures { result ≡ laid_out job.header (put_at at new (standing job)) }
{
    let header = job.header;
    let count = header.count as usize;
    let mut hazards = job.hazards;
    for i in (at..count).rev() {
        hazards[i + 1] = hazards[i];
    }
    hazards[at] = new;
    StoredJob {
        header: with_count(header, header.count + 1),
        hazards,
    }
}

// The hazard at a place taken out; each one behind it moves down.
pub fn taken_out(job: StoredJob, at: usize) -> StoredJob
    requires zeros_after { ZerosAfter job }
    requires count_bound { job.header.count ≤ 256 }
    requires at_lt_count { at < job.header.count }
    ensures { result ≡ laid_out job.header (taken_at at (standing job)) }
{
    let header = job.header;
    let last = header.count as usize - 1;
    let mut hazards = job.hazards;
    for i in at..last {
        hazards[i] = hazards[i + 1];
    }
    hazards[last] = UNUSED;
    StoredJob {
        header: with_count(header, header.count - 1),
        hazards,
    }
}
