// Reads a job from a file or from standard input and writes its text to standard output.
#![tactic(auto)]

mod help;

use crate::help::{HELP, VERSION};
use jsgen::Library;
use jsgen_device::{Failed, Sink, StdSink, StdSource};
use jsgen_tool::{Status, run, say};
use std::env;
use std::fs::File;
use std::io::{self, ErrorKind, Read, Stderr, Stdin, Stdout, Write};
use std::process::ExitCode;

// Either input, as one type.
#[derive(Drop)]
enum Input {
    Stdin(Stdin),
    File(File),
}

impl Read for Input {
    fn read(&mut self, buf: &mut [u8]) -> io::Result<usize> {
        match self {
            Input::Stdin(stdin) => stdin.read(buf),
            Input::File(file) => file.read(buf),
        }
    }
}

// Either output, as one type.
#[derive(Drop)]
enum Stream {
    Out(Stdout),
    Err(Stderr),
}

impl Write for Stream {
    fn write(&mut self, buf: &[u8]) -> io::Result<usize> {
        match self {
            Stream::Out(out) => out.write(buf),
            Stream::Err(err) => err.write(buf),
        }
    }

    fn flush(&mut self) -> io::Result<()> {
        match self {
            Stream::Out(out) => out.flush(),
            Stream::Err(err) => err.flush(),
        }
    }
}

// The words after the program's name. Arguments that can't be had as text are a faulty command line.
fn words_of(rt: &HostRuntime) -> Result<Vec<String>, Status> {
    let mut words = Vec::new(rt.alloc());
    let arguments = match env::args(rt) {
        Ok(arguments) => arguments,
        Err(error) => {
            return Err(match error.kind() {
                ErrorKind::OutOfMemory => Status::Memory,
                _ => Status::Usage,
            });
        }
    };
    for word in arguments.skip(1) {
        if words.push(word).is_err() {
            return Err(Status::Memory);
        }
    }
    Ok(words)
}

// The text that the words ask for, where they ask for no job.
fn text_asked(words: &[String]) -> Option<&'static str> {
    match words {
        [word] => match word.as_str() {
            "-h" | "--help" => Some(HELP),
            "--version" => Some(VERSION),
            _ => None,
        },
        _ => None,
    }
}

// Whether a file may stand behind the word.
fn takes_file(word: &String) -> bool {
    matches!(word.as_str(), "print" | "map" | "legal" | "check")
}

// The input that a file is, or standard input for `-`; none where it can't be opened.
fn input_of(rt: &HostRuntime, file: &String) -> Option<Input> {
    if file.as_str() == "-" {
        return Some(Input::Stdin(rt.stdin()));
    }
    match File::open(rt, file.as_str()) {
        Ok(opened) => Some(Input::File(opened)),
        Err(_) => None,
    }
}

// Says that a file can't be opened, and so not be read.
fn unopened(file: &String, err: &mut StdSink<Stream>) -> Status {
    let _ = err.push(b"no file to read: ");
    let _ = err.push(file.as_bytes());
    let _ = err.push(b"\n");
    Status::ReadFault
}

// Runs the words over an input.
fn run_over(rt: &HostRuntime, words: &[String], input: Input, err: &mut StdSink<Stream>) -> Status {
    let mut source = StdSource::new(input);
    let mut out = StdSink::new(Stream::Out(rt.stdout()));
    run::<Library, _, _>(rt.alloc(), words, &mut source, &mut out, err)
}

fn write_text(rt: &HostRuntime, text: &str, err: &mut StdSink<Stream>) -> Status {
    let mut out = StdSink::new(Stream::Out(rt.stdout()));
    match out.push(text.as_bytes()) {
        Ok(()) => Status::Done,
        Err(Failed) => {
            say(err, Status::WriteFault);
            Status::WriteFault
        }
    }
}

fn answer(rt: &HostRuntime, words: &[String], err: &mut StdSink<Stream>) -> Status {
    if let Some(text) = text_asked(words) {
        return write_text(rt, text, err);
    }
    match words {
        [word, file] if takes_file(word) => match input_of(rt, file) {
            Some(input) => run_over(rt, &words[..1], input, err),
            None => unopened(file, err),
        },
        _ => run_over(rt, words, Input::Stdin(rt.stdin()), err),
    }
}

fn main(rt: HostRuntime) -> ExitCode {
    let mut err = StdSink::new(Stream::Err(rt.stderr()));
    let status = match words_of(&rt) {
        Ok(words) => answer(&rt, &words, &mut err),
        Err(status) => {
            say(&mut err, status);
            status
        }
    };
    ExitCode::from(status.code())
}
