//! What is asked for of each file.
use crate::args::{Job, Task};
use crate::fault::{Clash, Fault};
use crate::{check, input, reach, show};
use std::process::ExitCode;

/// Does what is asked for of each file, behind a line with its name where there
/// are several. The status is that of a failure where an answer is wrong.
pub(crate) fn run_all(rt: &HostRuntime, job: &Job) -> Result<ExitCode, Fault> {
    if let Task::Check(answer) = &job.task {
        return match job.files.as_slice() {
            [file] => check::check(rt, file.as_str(), job.form, answer.as_str()),
            _ => Err(Fault::Clash(Clash::OneGame)),
        };
    }
    for file in job.files.iter() {
        run(rt, file.as_str(), job)?;
    }
    Ok(ExitCode::SUCCESS)
}

fn run(rt: &HostRuntime, file: &str, job: &Job) -> Result<(), Fault> {
    let source = input::source(rt, file, job.form, job.task.kind())?;
    if job.files.len() > 1 {
        println!(rt; "# {file}")?;
    }
    match &job.task {
        Task::Show {
            output,
            merge,
            summary,
        } => show::show(rt, file, source, *output, *merge, *summary),
        Task::Reach { target, side } => reach::reach(rt, file, source, target.as_str(), *side),
        Task::ShowWithEnds(output) => show::show_with_ends(rt, source, *output),
        // Looked at above, for one file.
        Task::Check(_) => Ok(()),
    }
}
