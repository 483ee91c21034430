use calls::ending::Ending;
use jobs::error::JobError;

mod errors;
mod legs;
mod ropes;
mod states;

// What came of a job: 0 with code and number, 99 if its turns are spent, or the refusal by which it is stuck.
// Kept numbers: the tables of the tests have them, and keep the values that they had.
fn told(came: Result<Option<Ending>, JobError>) -> Result<(u32, u32, u32), JobError> {
    match came {
        Ok(Some(Ending { code, number })) => Ok((0, code, number)),
        Ok(None) => Ok((99, 0, 0)),
        Err(JobError::Stuck(refusal)) => Ok((refusal.number(), 0, 0)),
        Err(error) => Err(error),
    }
}
