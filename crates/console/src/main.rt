// The console: commands from the files that are named, or from standard input.
#![tactic(auto)]

mod session;

use session::Session;
use std::io::{BufRead, BufReader};
use std::{env, fs, io};

// Obeys every line of standard input.
fn from_input(rt: &HostRuntime, session: &mut Session) -> io::Result<()> {
    for line in BufReader::new(rt.alloc(), rt.stdin())?.lines(rt.alloc()) {
        match line {
            Ok(text) => session.obey(rt, text.as_str())?,
            Err(_) => return println!(rt; "cannot read standard input"),
        }
    }
    Ok(())
}

// Obeys every line of a file.
fn from_file(rt: &HostRuntime, session: &mut Session, name: &str) -> io::Result<()> {
    let Ok(text) = fs::read_to_string(rt, name) else {
        return println!(rt; "cannot read {name}");
    };
    for line in text.as_str().lines() {
        session.obey(rt, line)?;
    }
    Ok(())
}

fn main(rt: HostRuntime) -> io::Result<()> {
    let mut session = Session::new(rt.alloc());
    let mut names = env::args(&rt)?.skip(1).peekable();
    // No file is named.
    if names.peek().is_none() {
        return from_input(&rt, &mut session);
    }
    for name in names {
        match name.as_str() {
            "-" => from_input(&rt, &mut session)?,
            named => from_file(&rt, &mut session, named)?,
        }
    }
    Ok(())
}
