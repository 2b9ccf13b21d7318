//! Runs a script of several clients over a core that is held in memory, and tells what each request was answered.
#![tactic(auto)]

mod answer;
mod arguments;
mod check;
mod command;
mod drill;
mod ending;
mod make;
mod reading;
mod status;
#[cfg(test)]
mod tests;
mod top;
mod writing;

pub use arguments::words_of;
pub use check::check_script;
pub use command::{Command, read_words};
pub use ending::tell_end;
use field_schema::NoMemory;
pub use make::make_script;
use rt_edge::{OpenGate, StdSink, StdSource, Writing};
pub use status::{Status, status_line};
use std::env;
use std::process::ExitCode;
pub use top::{Ran, run_top};

fn main(rt: HostRuntime) -> ExitCode {
    let status = match words_of(rt.alloc(), env::args(&rt)) {
        Ok(words) => {
            let mut input = StdSource::new(rt.stdin());
            let mut output = StdSink::new(rt.stdout());
            run_top(&rt, rt.alloc(), &words, &mut input, &mut output, &OpenGate).status
        }
        Err(NoMemory) => Status::NoMemory,
    };
    let mut error = Writing::new(rt.stderr());
    ExitCode::from(tell_end(&status, &mut error))
}
