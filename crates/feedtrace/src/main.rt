//! The console of the trace engine: a command a line, and an answer to each.
#![tactic(auto)]

mod answer;
mod ask;
mod carry;
mod change;
mod current;
mod either;
mod expected;
mod failure;
mod field;
mod grammar;
mod lay;
mod load;
mod loading;
mod number;
mod outcome;
mod part;
mod read_line;
mod session;
mod table_line;
mod table_step;
mod task;
mod told;
mod verb;

use answer::Answer;
use session::Session;
use std::io::{BufRead, BufReader};

/// Answers every line of standard input.
fn run(rt: &HostRuntime) -> anyhow::Result<()> {
    let heap = rt.alloc();
    let mut session = Session::new();
    for line in BufReader::new(heap, rt.stdin())?.split(heap, b'\n') {
        let line = line?;
        match session.answer(heap, line.as_slice()) {
            Ok(Some(Answer::Query(answer))) => rt.print(session.queries.reply(&answer))?,
            Ok(Some(Answer::Task(outcome))) => rt.println(outcome)?,
            Ok(None) => {}
            Err(failure) => rt.println(failure)?,
        }
        if let Some(lines) = session.progress() {
            // A remark that cannot be printed is no reason to end.
            let _ = eprintln!(rt; "{lines} lines of the table read");
        }
    }
    if let Some(failure) = session.unfinished() {
        rt.println(failure)?;
    }
    Ok(())
}

fn main(rt: HostRuntime) -> anyhow::Result<()> {
    run(&rt)
}
