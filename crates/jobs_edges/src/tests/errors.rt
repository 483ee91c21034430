// What a program shows where nothing came of a job.
use calls::refusal::Refusal;
use jobs::error::JobError;
use std::test::Fail;

#[test]
fn an_error_of_a_job_says_why(rt: HostRuntime) -> Result<(), Fail> {
    let stuck = JobError::Stuck(Refusal::TooManyWrites).to_string(rt.alloc())?;
    assert_eq!(rt; stuck.as_str(), "the job can never go on, by refusal 5");
    let short = JobError::NoMemory.to_string(rt.alloc())?;
    assert_eq!(rt;
        short.as_str(),
        "there is not enough memory for the job's writes"
    );
    Ok(())
}
