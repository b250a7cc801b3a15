// FASTA from standard input, the table of its records to standard output. A read or a write that fails ends the run, and standard
// error says which.
#![tactic(auto)]

ghost use Rattle.std.specs.Prelude.{◌≤◌, length};

use fasta::feeds::{Fed, Then, feed, feed_end};
use fasta::reader::{BASES, FLAGS, Reader, start};
use std::io;
use std::io::{Read, Write};

fn main(rt: HostRuntime) -> io::Result<()> {
    let mut buffer = [0u8; 4096];
    let mut text = [0u8; 4096];
    let mut bases = [0u8; BASES];
    let mut flags = [0u8; FLAGS];
    let mut other = [0u8; BASES];
    run(
        &rt,
        &mut buffer,
        &mut text,
        &mut bases,
        &mut flags,
        &mut other,
    )
}

// Does what the last feed left to do, and feeds again. A proved loop has to end, and nothing says that the input does: the turns are
// counted, up to a number that no run uses up.
fn run(
    rt: &HostRuntime,
    buffer: &mut [u8],
    text: &mut [u8; 4096],
    bases: &mut [u8; BASES],
    flags: &mut [u8; FLAGS],
    other: &mut [u8; BASES],
) -> io::Result<()> {
    let begun = start(text);
    let mut reader = begun.reader;
    let mut filled = begun.wrote;
    let mut then = Then::Read;
    let mut at: usize = 0;
    let mut n: usize = 0;
    for _ in 0..u64::MAX {
        match then {
            Then::Read => {
                match rt.stdin().read(buffer) {
                    Ok(got) => {
                        at = 0;
                        n = got;
                    }
                    Err(error) => {
                        say(rt, "read", &error)?;
                        put(rt, text, filled)?;
                        return Ok(());
                    }
                }
            }
            Then::Write => {
                if !put(rt, text, filled)? {
                    return Ok(());
                }
                filled = 0;
            }
            Then::Stop => {
                put(rt, text, filled)?;
                return Ok(());
            }
        }
        let fed = feed_rest(reader, &buffer[at..n], bases, flags, other, text, filled);
        reader = fed.reader;
        filled = fed.filled;
        then = fed.then;
        at += fed.used;
    }
    Ok(())
}

// Nothing is left of the part only where nothing was read: at the end of the input.
fn feed_rest(
    reader: Reader,
    part: &[u8],
    bases: &mut [u8; BASES],
    flags: &mut [u8; FLAGS],
    other: &mut [u8; BASES],
    text: &mut [u8],
    filled: usize,
) -> Fed
    requires { filled ≤ length text.old }
    ensures used { result.used ≤ length part.now }
    ensures filled { result.filled ≤ length text.old }
{
    if part.len() == 0 {
        return feed_end(reader, bases, flags, other, text, filled);
    }
    feed(reader, part, bases, flags, other, text, filled)
}

// Writes the bytes in use to standard output, or says that it cannot.
fn put(rt: &HostRuntime, text: &[u8], filled: usize) -> io::Result<bool>
    requires { filled ≤ length text.now }
{
    match rt.stdout().write_all(&text[..filled]) {
        Ok(()) => Ok(true),
        Err(error) => {
            say(rt, "write", &error)?;
            Ok(false)
        }
    }
}

// What failed, and the system's words for why, without its number.
fn say(rt: &HostRuntime, what: &str, error: &io::Error) -> io::Result<()> {
    let said = format!(in rt.alloc(); "{error}")?;
    match said.as_str().split_once(" (os error") {
        Some((why, _)) => eprintln!(rt; "{what}: {why}"),
        None => eprintln!(rt; "{what}: {said}"),
    }
}
