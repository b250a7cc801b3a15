// Reading a .2bit file of either byte order.
ghost use Rattle.std.specs.Prelude.{◌≡◌};
ghost use Rattle.codes.specs.Answers.{says};
ghost use Rattle.twobit.specs.Answers.{cursor_says, entry_says, info_says, read_says};
ghost use Rattle.twobit.specs.Files.{offset_size};
ghost use Rattle.twobit.specs.Reading.{check_answer, first_answer, entry_answer, info_answer, record_answer, bases_after, flags_after};

use crate::answers::{Cursor, Entry, Info, Read};
use crate::inner::files::{are_entries, entry_at, header_of};
use crate::inner::filling::{fill_flags, record_ready};
use crate::inner::records::record_at;
use crate::inner::{HEADER, OFFSET};
use codes::refusals::Refusal;
use codes::units::Chars;
use dna::inner::reading::read_dna;

// Judges a whole file, and counts its sequences.
pub fn check(file: &[u8]) -> Result<usize, Refusal>
    ensures { says result ≡ check_answer file.now }
{
    let header = header_of(file).ok_or(Refusal::BadForm)?;
    if !are_entries(file, header.big, OFFSET, header.count, HEADER) {
        return Err(Refusal::BadForm);
    }
    Ok(header.count)
}

// The first entry of the index.
pub fn first(file: &[u8]) -> Result<Cursor, Refusal>
    ensures { cursor_says result ≡ first_answer file.now }
{
    header_of(file).ok_or(Refusal::BadForm)?;
    Ok(Cursor {
        number: 0,
        at: HEADER,
    })
}

// The entry of a number at a byte, and the next entry's number and byte.
pub fn entry(file: &[u8], number: usize, at: usize) -> Result<Entry, Refusal>
    ensures { entry_says result ≡ entry_answer offset_size file.now number at }
{
    let header = header_of(file).ok_or(Refusal::BadForm)?;
    if header.count <= number {
        return Err(Refusal::BadRange);
    }
    let entry = entry_at(file, header.big, OFFSET, at).ok_or(Refusal::BadForm)?;
    if file.len() <= entry.offset {
        return Err(Refusal::BadForm);
    }
    Ok(Entry {
        name: at + 1,
        size: entry.size,
        offset: entry.offset,
        number: number + 1,
        at: entry.end,
    })
}

// How long the sequence of the record at byte `offset` is, and how many N blocks and mask blocks it has.
pub fn record_info(file: &[u8], offset: usize) -> Result<Info, Refusal>
    ensures { info_says result ≡ info_answer file.now offset }
{
    let header = header_of(file).ok_or(Refusal::BadForm)?;
    let parts = record_at(file, header.big, offset).ok_or(Refusal::BadForm)?;
    Ok(Info {
        len: Chars::new(parts.size),
        blocks: parts.blocks,
        masks: parts.masks,
    })
}

// Fills two buffers as stores with the sequence of the record at byte `offset`.
pub fn record(
    file: &[u8],
    offset: usize,
    bases: &mut [u8],
    flags: &mut [u8],
) -> Result<Read, Refusal>
    ensures answer { read_says result ≡ record_answer file.now offset bases.old flags.old }
    ensures base_bytes { bases.new ≡ bases_after file.now offset bases.old flags.old }
    ensures flag_bytes { flags.new ≡ flags_after file.now offset bases.old flags.old }
{
    let ready = record_ready(file, offset, bases.len(), flags.len())?;
    let parts = ready.parts;
    fill_flags(file, ready.big, offset + 4, parts.blocks, parts.size, flags);
    read_dna(file, parts.dna, parts.size, flags, bases);
    Ok(Read {
        len: Chars::new(parts.size),
        masks: parts.masks,
    })
}
