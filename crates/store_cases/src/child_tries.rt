//! Children of the system: how they end, that they are finished once, and that none is left.
use da_outside::{Child, RealSpawner, Spawner, Trouble};
use da_values::{Buf, List};
use std::alloc::{AllocError, Global};
use std::process::Processes;
use std::{rt, str};

/// Prints how children end and what they write, and what becomes of one that is finished too often or not at all.
pub fn try_children<R: Processes + rt::Files + Print + AllocGlobal>(rt: &R) -> anyhow::Result<()> {
    let mut out = List::new(rt.alloc());
    show_endings(rt, &mut out)?;
    println!(rt; "{}", str::from_utf8(out.as_slice())?)?;
    finish_once(rt)?;
    stop_one(rt)
}

// Prints how four children end.
fn show_endings<R: Processes + rt::Files + Print + AllocGlobal>(
    rt: &R,
    out: &mut Buf,
) -> anyhow::Result<()> {
    show_ending(rt, "echo", &["a", "b"], out)?;
    show_ending(rt, "sh", &["-c", "printf c; exit 9"], out)?;
    show_ending(rt, "sh", &["-c", "kill -9 $$"], out)?;
    show_ending(rt, "/no/such/file", &[], out)
}

// The words of a child.
fn words_of(alloc: Global, words: &[&str]) -> Result<Vec<String>, AllocError> {
    let mut list = Vec::new(alloc);
    for word in words {
        list.push(String::from_str(alloc, word)?)?;
    }
    Ok(list)
}

// How a file ends that is started with these words: its status, or that a call failed.
fn ending<R: Processes + rt::Files + AllocGlobal>(
    rt: &R,
    file: &str,
    words: &[&str],
    out: &mut Buf,
) -> Result<Result<u8, Trouble>, AllocError> {
    let mut spawner = RealSpawner::new(rt, Some(String::from_str(rt.alloc(), file)?));
    let words = words_of(rt.alloc(), words)?;
    match spawner.start(words.as_slice()) {
        Ok(child) => Ok(spawner.finish(child, out)),
        Err(trouble) => Ok(Err(trouble)),
    }
}

// Prints how a file ends, and how many bytes there are of it and of those before.
fn show_ending<R: Processes + rt::Files + Print + AllocGlobal>(
    rt: &R,
    file: &str,
    words: &[&str],
    out: &mut Buf,
) -> anyhow::Result<()> {
    let ended = ending(rt, file, words, out)?;
    println!(rt; "{file}: {ended:?}, {} bytes", out.len())?;
    Ok(())
}

// Finishes a child before it is started, then, and once more.
fn finish_once<R: Processes + rt::Files + Print + AllocGlobal>(rt: &R) -> anyhow::Result<()> {
    let mut out = List::new(rt.alloc());
    let mut spawner = RealSpawner::new(rt, Some(String::from_str(rt.alloc(), "true")?));
    show_finishes(rt, &mut spawner, &mut out)
}

// Prints how a child ends that is finished before it is started, then, and once more.
fn show_finishes<R: Print, S: Spawner>(
    rt: &R,
    spawner: &mut S,
    out: &mut Buf,
) -> anyhow::Result<()> {
    let before = spawner.finish(Child { number: 1 }, out);
    let child = spawner.start(&[])?;
    let number = child.number;
    let ended = spawner.finish(child, out);
    let after = spawner.finish(Child { number: 1 }, out);
    println!(rt;
        "child {number}: {before:?} before its start, {ended:?}, {after:?} after its end"
    )?;
    Ok(())
}

// Prints how a child ends that was stopped.
fn stop_one<R: Processes + rt::Files + Print + AllocGlobal>(rt: &R) -> anyhow::Result<()> {
    let ended = stopped(rt)?;
    println!(rt; "stopped: {ended:?}")?;
    Ok(())
}

// How a child ends that was to go on for long, and was stopped.
fn stopped<R: Processes + rt::Files + AllocGlobal>(rt: &R) -> anyhow::Result<Result<u8, Trouble>> {
    let mut out = List::new(rt.alloc());
    let mut spawner = RealSpawner::new(rt, Some(String::from_str(rt.alloc(), "sleep")?));
    let words = words_of(rt.alloc(), &["1000"])?;
    let child = spawner.start(words.as_slice())?;
    spawner.end();
    Ok(spawner.finish(child, &mut out))
}
