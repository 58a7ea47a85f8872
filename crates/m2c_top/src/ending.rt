//! How the work ends.
ghost use Rattle.std.specs.Prelude.{◌≡◌};
ghost use Rattle.m2c_top.specs.Ending.{ended_as, ended_compiling as spec_compiling, ended_over};
ghost use Rattle.m2c_top.specs.Statuses.{status_after as spec_after, status_compiled as spec_compiled};

use crate::status::Status;
use module_outcome as compiling;
use object_commands as objects;

/// Why the work was given up.
#[derive(Clone, Copy)]
pub enum Stop {
    Read,
    Write,
    Memory,
}

/// The status of an answer to compiling.
fn status_compiled(answer: compiling::Answer) -> Status
    ensures { result ≡ spec_compiled answer }
{
    match answer {
        compiling::Answer::Done => Status::Done,
        compiling::Answer::Diagnosed => Status::Diagnosed,
        compiling::Answer::NoText => Status::NoText,
        compiling::Answer::OverLimit => Status::OverLimit,
    }
}

/// How compiling ended.
pub fn ended_compiling(outcome: Result<compiling::Answer, compiling::Stop>) -> Result<Status, Stop>
    ensures { result ≡ spec_compiling outcome }
{
    match outcome {
        Ok(answer) => Ok(status_compiled(answer)),
        Err(compiling::Stop::Read) => Err(Stop::Read),
        Err(compiling::Stop::Write) => Err(Stop::Write),
        Err(compiling::Stop::Memory) => Err(Stop::Memory),
    }
}

/// The status of an answer to a command over objects.
fn status_after(answer: objects::Answer) -> Status
    ensures { result ≡ spec_after answer }
{
    match answer {
        objects::Answer::Done => Status::Done,
        objects::Answer::NoObject => Status::NoObject,
        objects::Answer::OverLimit => Status::OverLimit,
        objects::Answer::BadObjects => Status::BadObjects,
        objects::Answer::Trapped => Status::Trapped,
        objects::Answer::StepsSpent => Status::StepsSpent,
    }
}

/// How a command over objects ended.
pub fn ended(outcome: Result<objects::Answer, objects::Stop>) -> Result<Status, Stop>
    ensures { result ≡ ended_over outcome }
{
    match outcome {
        Ok(answer) => Ok(status_after(answer)),
        Err(objects::Stop::Read) => Err(Stop::Read),
        Err(objects::Stop::Write) => Err(Stop::Write),
        Err(objects::Stop::Memory) => Err(Stop::Memory),
    }
}

/// The status that the work ended with.
pub fn status_of(ended: Result<Status, Stop>) -> Status
    ensures { result ≡ ended_as ended }
{
    match ended {
        Ok(status) => status,
        Err(Stop::Read) => Status::ReadFault,
        Err(Stop::Write) => Status::WriteFault,
        Err(Stop::Memory) => Status::NoMemory,
    }
}
