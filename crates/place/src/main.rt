// The program `place`: draws the sheet on its standard input, and prints the drawing or the refusal.
#![tactic(auto)]

mod answer;

use crate::answer::answer;
use report::limits::MAX_TEXT;
use sheet::limits::MAX_BYTES;
use std::env::{Env, FillError};
use std::io;
use std::io::{Read, Write};

// What is read of the input. A sheet has fewer bytes, so the byte behind it is among these, and no answer depends on any
// later one.
const INPUT_BYTES: usize = MAX_BYTES + 1;

// The system's words for an error, without the number that std puts behind them.
fn words(said: &str) -> &str {
    match said.rsplit_once(" (os error ") {
        Some((front, _)) => front,
        None => said,
    }
}

// Says on the standard error what failed, and why; with the number where there is no memory for the words.
fn complain(rt: &HostRuntime, what: &str, error: io::Error) {
    let _ = match format!(in rt.alloc(); "{error}") {
        Ok(said) => eprintln!(rt; "place: {what}: {}", words(said.as_str())),
        Err(_) => eprintln!(rt; "place: {what}: {error}"),
    };
}

// Draws a sheet, and prints the text of the answer by one write.
fn print(rt: &HostRuntime, bytes: &[u8]) {
    let mut text = [0u8; MAX_TEXT];
    let count = answer(bytes, &mut text);
    if let Err(error) = rt.stdout().write_all(&text[0..count]) {
        complain(rt, "standard output", error);
    }
}

// Reads the input to its end or until the slice is full, in whatever pieces it comes, and prints the answer.
fn run(rt: &HostRuntime, input: &mut [u8]) {
    // A while: the input comes in pieces of any size.
    let mut done: usize = 0;
    while done < input.len() {
        match rt.stdin().read(&mut input[done..]) {
            Err(error) => {
                complain(rt, "standard input", error);
                return;
            }
            Ok(0) => {
                print(rt, &input[0..done]);
                return;
            }
            Ok(count) => done += count,
        }
    }
    print(rt, input);
}

// Answers the sheet on standard input; with any argument, says how the program is used.
fn main(rt: HostRuntime) {
    let mut argument = [0u8; 1];
    if let Err(FillError::NotPresent) = rt.arg(1, &mut argument) {
        let mut input = [0u8; INPUT_BYTES];
        run(&rt, &mut input);
        return;
    }
    let _ = eprintln!(rt; "place 0.7.0: draws the sheet on standard input; usage: place < SHEET");
}
