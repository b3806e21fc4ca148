// Replays the stored answers of the unchanged Rust: how many cases of each function of an area ran, and how many differ. The
// arguments name the files of the areas, in the areas' order; a function goes by its number.
#![tactic(auto)]

ghost use Rattle.io.specs.Counts.{IsPrefixLen};

use input::read_full;
use leaves::{ALL, Tally, count};
use std::fs::File;
use std::rt::{Env, Files};
use std::{io, str};

// Reads a file; no bytes where it is missing, or where its name is no text.
fn read(rt: &impl Files, name: &[u8], buf: &mut [u8]) -> usize
    ensures { IsPrefixLen result buf.new }
{
    let Ok(path) = str::from_utf8(name) else {
        return 0;
    };
    match File::open(rt, path) {
        Ok(mut file) => read_full(&mut file, buf),
        Err(_) => 0,
    }
}

fn print(rt: &impl Print, t: Tally) -> io::Result<()> {
    let ran = t.ran;
    let differ = t.differ;
    println!(rt; " {ran} cases, {differ} differ")
}

fn line(rt: &impl Print, name: &[u8], f: u32, t: Tally) -> io::Result<()> {
    rt.write_all(name)?;
    print!(rt; " {f}")?;
    print(rt, t)
}

// How many functions an area has, by its number, as its file stands among the arguments and as `count` takes it.
fn functions(area: u32) -> u32 {
    match area {
        0 | 1 => 14,
        2 => 13,
        3 | 5 => 9,
        4 => 6,
        6 => 1,
        7 => 3,
        9 => 4,
        _ => 5,
    }
}

// A line for each function of an area.
fn lines(rt: &impl Print, name: &[u8], bytes: &[u8], area: u32) -> io::Result<()> {
    for f in 1..=functions(area) {
        line(rt, name, f, count(bytes, area, f))?;
    }
    Ok(())
}

// A line for all cases of an area.
fn total(rt: &impl Print, name: &[u8], bytes: &[u8], area: u32) -> io::Result<()> {
    rt.write_all(name)?;
    print(rt, count(bytes, area, ALL))
}

fn replay(rt: &(impl Files + Print), name: &[u8], buf: &mut [u8], area: u32) -> io::Result<()> {
    let n = read(rt, name, buf);
    let bytes = &buf[..n];
    lines(rt, name, bytes, area)?;
    total(rt, name, bytes, area)
}

// Replays the area whose file the next argument names.
fn replay_next(rt: &(impl Env + Files + Print), buf: &mut [u8], area: u32) -> io::Result<()> {
    let mut name = [0; 16];
    let n = rt.arg(area as usize + 1, &mut name).unwrap_or(0);
    replay(rt, &name[..n], buf, area)
}

fn replay_all(rt: &(impl Env + Files + Print), buf: &mut [u8]) -> io::Result<()> {
    for area in 0..10 {
        replay_next(rt, buf, area)?;
    }
    Ok(())
}

fn main(rt: HostRuntime) -> io::Result<()> {
    // As many bytes as any stored file has.
    let mut buf = [0; 420000];
    replay_all(&rt, &mut buf)
}
