// The program: its arguments are a disk and a number of rounds; it reads a ticket from standard input, and prints how many slots that disk needs for
// the job to be done within those rounds, or that no count is enough.
#![tactic(auto)]

use std::env::{Env, FillError};
use std::io;

// What is printed if there are not two arguments, each a number; no ticket is read then.
fn print_usage(rt: &HostRuntime) -> io::Result<()> {
    rt.write_all(b"usage: slots DISK ROUNDS < TICKET\n")
}

// The answer for the ticket on standard input. A longer input is cut to 3,091 bytes, as in `plan`; what is printed is what the whole input gives
// (`cut_slots` of `slots_text`).
fn answer(rt: &HostRuntime, disk: usize, wanted: usize) -> io::Result<()> {
    let mut ticket = [0u8; 3091];
    let n = input::read_front(&mut rt.stdin(), &mut ticket)?;
    let mut text = [0u8; 16];
    let m = slots_text::slots(&ticket[..n], disk, wanted, &mut text);
    rt.write_all(&text[..m])
}

// An argument as a number. One that is missing or longer than 4,096 bytes is none.
fn argument(rt: &HostRuntime, i: usize) -> Option<usize> {
    let mut text = [0u8; 4096];
    let n = rt.arg(i, &mut text).ok()?;
    arguments::number(&text[..n])
}

// Whether there are no more than two arguments beside the program's name.
fn no_third_argument(rt: &HostRuntime) -> bool {
    let mut text = [0u8; 1];
    matches!(rt.arg(3, &mut text), Err(FillError::NotPresent))
}

// Numbers from 65,535 on are given as that; what is printed is the same (`disk_capped` and `rounds-capped` in `proofs/Capped.antt`).
fn main(rt: HostRuntime) -> io::Result<()> {
    if !no_third_argument(&rt) {
        return print_usage(&rt);
    }
    let (Some(disk), Some(wanted)) = (argument(&rt, 1), argument(&rt, 2)) else {
        return print_usage(&rt);
    };
    answer(&rt, disk, wanted)
}
