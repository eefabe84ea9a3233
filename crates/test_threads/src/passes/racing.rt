//! Threads that share one value.

ghost use Rattle.std.specs.Prelude.{All, IfOk};

use std::alloc::{AllocError, Global};
use std::sync::Wait;
use std::thread;
use std::thread::Threads;

/// What a thread does with a value that threads share, and with a job of its own. A trait of its own, so that a thread
/// that borrows the value asks no more of it than that it may be shared.
pub(crate) trait PlaysJob<R: Wait> {
    /// What a thread has of its own.
    type Job: Send + Drop;

    /// That the job is of this value.
    ghost suits: { Self → Self.Job → Type 0 };

    /// Does a job, and hands it back.
    fn play(&self, rt: &R, alloc: Global, job: Self::Job) -> Self::Job
        requires { suits self.now job }
        ensures { suits self.now result };
}

/// Does each job in a thread of its own, and hands them back in order.
pub(crate) fn race<R: Threads + Wait + Sync, C: PlaysJob<R> + Sync>(
    rt: &R,
    alloc: Global,
    shared: &C,
    jobs: Vec<C::Job>,
) -> Result<Vec<C::Job>, AllocError>
    requires { All (λ job. C.suits shared.now job) jobs.items }
    ensures { IfOk result (λ done. All (λ job. C.suits shared.now job) done.items) }
{
    thread::map_vec(rt, jobs, &|job| shared.play(rt, alloc, job))
}
