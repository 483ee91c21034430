// Why nothing came of a job.
ghost use Rattle.std.specs.Prelude.{◌≡◌};
ghost use Rattle.jobs.specs.declared.error.JobError.TheVariants.{Stuck, NoMemory};

use calls::refusal::Refusal;
use std::alloc::AllocError;
use thiserror::Error;

#[derive(Clone, Copy, Debug, PartialEq, Eq, Error)]
pub enum JobError {
    // The job asked for a line that is not there, or for one write too many; it will never go on.
    #[error("the job can never go on, by refusal {}", .0.number())]
    Stuck(Refusal),
    #[error("there is not enough memory for the job's writes")]
    NoMemory,
}

impl From<Refusal> for JobError {
    ghost from_gives = { λ refusal error. error ≡ Stuck refusal };

    fn from(refusal: Refusal) -> JobError {
        JobError::Stuck(refusal)
    }
}

impl From<AllocError> for JobError {
    ghost from_gives = { λ _ error. error ≡ NoMemory };

    fn from(_error: AllocError) -> JobError {
        JobError::NoMemory
    }
}
