// How long reading takes: times to standard error, a checksum of what was read to standard output.
#![tactic(auto)]

use code::{CodeStore, Instruction, MOST_INSTRUCTIONS};
use std::time::Instant;
use std::{fs, io};

// Each job is done so often, and its mean is told.
const ROUNDS: u32 = 1000;

// The bytes of the largest image: a head and six for each instruction.
const IMAGE_BYTES: usize = 24580;

// Does a job again and again and tells how long one round took on the mean; the sum of what it gave.
fn measured<F: FnMut() -> usize>(rt: &HostRuntime, what: &str, mut job: F) -> io::Result<usize>
    requires { F.IsAlwaysCallable job }
{
    let mut sum = 0usize;
    let start = Instant::now(rt)?;
    // Nothing is counted but the rounds.
    for _ in 0..ROUNDS {
        sum = sum.saturating_add(job());
    }
    let mean = start.elapsed(rt)?.as_nanos() / u128::from(ROUNDS);
    eprintln!(rt; "{what}: {mean} ns")?;
    Ok(sum)
}

// Reads a station's tables again and again; how many records were accepted in all.
fn tables(rt: &HostRuntime, name: &str) -> io::Result<()> {
    let bytes = fs::read(rt, name)?;
    let records = measured(rt, name, || {
        reader::read(bytes.as_slice()).map_or(0, |accepted| accepted.tables().count())
    })?;
    println!(rt; "{name}: {records} records accepted")
}

// Writes and reads the largest image again and again; how many bytes and instructions that were in all.
fn images(rt: &HostRuntime) -> io::Result<()> {
    let Ok(store) = CodeStore::new(&[Instruction::Return; MOST_INSTRUCTIONS]) else {
        return println!(rt; "no code");
    };
    let mut buffer = vec![in rt.alloc(); 0u8; IMAGE_BYTES]?;
    let written = measured(rt, "image written", || {
        image::write(&store, &mut buffer).unwrap_or(0)
    })?;
    let read = measured(rt, "image read", || {
        image::read(buffer.as_slice()).map_or(0, |code| code.len())
    })?;
    println!(rt; "images: {written} bytes written, {read} instructions read")
}

fn main(rt: HostRuntime) -> io::Result<()> {
    tables(&rt, "modules.bin")?;
    tables(&rt, "lines.bin")?;
    images(&rt)
}
