//! The command `noise`: handshake patterns, and two parties of a Noise session that are run on a vector file. What the
//! command does is `noise_tool`'s. Here are the words of the command line and the files of the system.
#![tactic(auto)]

mod hints;
mod seen;

ghost use Rattle.std.specs.Prelude.{◌≡◌, true, IfErr, None};
ghost use Rattle.noise_lines.specs.Faults.{status_of};

use hints::{VERSION_ONE, lines_below};
use noise_lines::write;
use noise_tool::{
    Fault, LineFault, NamedFiles, Order, System, chosen, line_status, next_commands, perform,
    print, read_file,
};
use seen::{Seen, Watched};
use std::alloc::Global;
use std::cell::Cell;
use std::env;
use std::fs::File;
use std::io::{self, BufWriter, ErrorKind, Stderr, Stdout, Write};
use std::process::ExitCode;

// Does what is asked for. The output goes through a buffer.
fn main(rt: HostRuntime) -> ExitCode {
    let order = match order_of(&rt) {
        Ok(order) => order,
        Err(status) => return ExitCode::from(status),
    };
    let closed = Cell::new(false);
    let output = Output {
        to: rt.stdout(),
        closed: &closed,
    };
    let mut errors = Errors {
        to: rt.stderr(),
        closed: &closed,
    };
    let seen = Seen::nothing(rt.alloc());
    let files = NamedFiles {
        system: &Opened {
            rt: &rt,
            seen: &seen,
        },
    };
    let status = match BufWriter::new(rt.alloc(), output) {
        Ok(mut out) => perform(rt.alloc(), &order, &files, &mut out, &mut errors),
        Err(_) => ends_with(&rt, Fault::Memory),
    };
    if status != 0 {
        say_more(rt.alloc(), &order, &seen, status, &mut errors);
    }
    ExitCode::from(status)
}

// Writes the lines below that of a fault, if memory is at hand.
fn say_more(alloc: Global, order: &Order, seen: &Seen, status: u8, errors: &mut Errors<'_>) {
    if let Order::Test(_) = order
        && status < 3
        && seen.has_version_one()
    {
        let _ = write(VERSION_ONE, errors);
    }
    if let Ok(lines) = lines_below(alloc, order, seen, status) {
        let _ = write(&lines, errors);
    }
}

// What the command line asks for; where it is nothing, what is wrong is printed, and this is the exit status.
fn order_of(rt: &HostRuntime) -> Result<Order, u8> {
    match words(rt) {
        Ok(words) => match chosen(rt.alloc(), words) {
            Ok(order) => Ok(order),
            Err(LineFault::Memory) => Err(ends_with(rt, Fault::Memory)),
            Err(LineFault::Line(error)) => Err(print_line_fault(rt, &error)),
        },
        Err(error) if error.kind() == ErrorKind::OutOfMemory => Err(ends_with(rt, Fault::Memory)),
        Err(_) => {
            let _ = eprintln!(rt; "error: a word of the command line isn't UTF-8");
            Err(2)
        }
    }
}

fn words(rt: &HostRuntime) -> io::Result<Vec<String>> {
    Ok(env::args(rt)?.collect(rt.alloc())?)
}

// The files of the system, each opened where it is read.
#[derive(Clone, Copy)]
struct Opened<'a> {
    rt: &'a HostRuntime,
    seen: &'a Seen,
}

impl System for Opened<'_> {
    ghost file_at = { λ _ _. None };

    ghost unreadable = { λ _ _. true };

    ghost input = { λ _. None };

    fn read_file(&self, alloc: Global, name: &str) -> Result<Vec<u8>, Fault> {
        let mut file = Watched {
            from: open(self.rt, name, self.seen)?,
            failed: None,
        };
        let text = read_file(alloc, &mut file);
        note(alloc, name, self.seen, &text, file.failed);
        text
    }

    fn read_input(&self, alloc: Global) -> Result<Vec<u8>, Fault> {
        let text = read_file(alloc, &mut self.rt.stdin());
        note(alloc, "-", self.seen, &text, None);
        text
    }
}

fn open(rt: &HostRuntime, name: &str, seen: &Seen) -> Result<File, Fault>
    ensures { IfErr result (λ fault. status_of fault ≡ 3) }
{
    match File::open(rt, name) {
        Ok(file) => Ok(file),
        Err(error) if error.kind() == ErrorKind::OutOfMemory => Err(Fault::Memory),
        Err(error) => {
            seen.note_unread(rt.alloc(), name, error.kind());
            Err(Fault::Unreadable)
        }
    }
}

// Notes what comes of reading a file.
fn note(
    alloc: Global,
    name: &str,
    seen: &Seen,
    text: &Result<Vec<u8>, Fault>,
    failed: Option<ErrorKind>,
) {
    match text {
        Ok(text) => seen.note_text(text),
        Err(Fault::Unreadable) => {
            seen.note_unread(alloc, name, failed.unwrap_or(ErrorKind::Other));
        }
        Err(_) => {}
    }
}

// Standard output, which says whether it is a pipe that nobody reads any more.
#[derive(Drop)]
struct Output<'a> {
    to: Stdout,
    closed: &'a Cell<bool>,
}

impl Write for Output<'_> {
    fn write(&mut self, bytes: &[u8]) -> io::Result<usize> {
        let written = self.to.write(bytes);
        if let Err(error) = &written {
            if error.kind() == ErrorKind::BrokenPipe {
                self.closed.set(true);
            }
        }
        written
    }

    fn flush(&mut self) -> io::Result<()> {
        self.to.flush()
    }
}

// Standard error, which gets nothing after standard output was closed.
#[derive(Drop)]
struct Errors<'a> {
    to: Stderr,
    closed: &'a Cell<bool>,
}

impl Write for Errors<'_> {
    fn write(&mut self, bytes: &[u8]) -> io::Result<usize> {
        if self.closed.get() {
            return Ok(bytes.len());
        }
        self.to.write(bytes)
    }

    fn flush(&mut self) -> io::Result<()> {
        self.to.flush()
    }
}

fn ends_with(rt: &HostRuntime, fault: Fault) -> u8 {
    print(rt.alloc(), Err(fault), &mut rt.stdout(), &mut rt.stderr())
}

// Help, where it is asked for, is no fault and goes to standard output.
fn print_line_fault(rt: &HostRuntime, error: &clap::Error) -> u8 {
    let printed = error.print(rt);
    match line_status(error, printed.is_ok()) {
        0 => 0,
        3 => ends_with(rt, Fault::Unwritable),
        status => {
            let _ = eprint!(rt; "{}", next_commands(error));
            status
        }
    }
}
