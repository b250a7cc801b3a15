// Writing a .2bit file, one sequence at a time, with the lowest byte of each number first.
ghost use Rattle.std.specs.Prelude.{◌≡◌};
ghost use Rattle.codes.specs.Answers.{says};
ghost use Rattle.twobit.specs.Files.{offset_size};
ghost use Rattle.twowrite.specs.Answers.{started_says, stepped_says};
ghost use Rattle.twowrite.specs.Writing.{start_answer, start_after, size_answer, add_answer, add_after, finish_answer};

use crate::answers::{Stepped, Writing};
use crate::inner::headers::{start_outcome, write_header};
use crate::inner::sequences::{add_ready, write_entry, write_record};
use codes::refusals::Refusal;
use codes::units::Chars;
use codes::widths::{Bases, Flags};
use fields::inner::parts::view_outcome;
use fields::inner::runs::count_runs;
use twobit::inner::{HEADER, OFFSET, VERSION};

// Writes the header of a file of `count` sequences, whose names have so many bytes together.
pub fn start(count: usize, names: usize, out: &mut [u8]) -> Result<Writing, Refusal>
    ensures answer { started_says result ≡ start_answer 0 offset_size count names out.old }
    ensures bytes { out.new ≡ start_after 0 offset_size count names out.old }
{
    start_outcome(OFFSET, count, names, out.len())?;
    let stop = HEADER + (count * (OFFSET + 1) + names);
    write_header(VERSION, count, out);
    Ok(Writing {
        entry: HEADER,
        stop,
        place: stop,
        left: count,
    })
}

// The bytes of the record of a sequence with these flags.
pub fn record_size(flags: &[u8], flag_offset: Chars, flag_len: Chars) -> Result<usize, Refusal>
    ensures { says result ≡ size_answer flags.now flag_offset.0 flag_len.0 }
{
    view_outcome::<Flags>(flags, flag_offset, flag_len)?;
    let count = count_runs(flags, flag_offset.count(), flag_len.count());
    Ok(16 + 8 * count + flag_len.bytes_as::<Bases>().count())
}

// Writes the entry and the record of one sequence more.
pub fn add(
    state: Writing,
    name: &[u8],
    bases: &[u8],
    base_offset: Chars,
    base_len: Chars,
    flags: &[u8],
    flag_offset: Chars,
    flag_len: Chars,
    out: &mut [u8],
) -> Stepped
    ensures answer { stepped_says result ≡
        add_answer offset_size state name.now bases.now base_offset.0 base_len.0
        flags.now flag_offset.0 flag_len.0 out.old }
    ensures bytes { out.new ≡
        add_after offset_size state name.now bases.now base_offset.0 base_len.0
        flags.now flag_offset.0 flag_len.0 out.old }
{
    match add_ready(
        OFFSET,
        state,
        name.len(),
        bases,
        base_offset,
        base_len,
        flags,
        flag_offset,
        flag_len,
        out.len(),
    ) {
        Err(refusal) => Stepped {
            state,
            outcome: Err(refusal),
        },
        Ok(count) => {
            let n = base_len.count();
            write_entry(name, OFFSET, state.place, out, state.entry);
            write_record(
                bases,
                base_offset.count(),
                flags,
                flag_offset.count(),
                n,
                count,
                out,
                state.place,
            );
            Stepped {
                state: Writing {
                    entry: state.entry + (name.len() + OFFSET + 1),
                    stop: state.stop,
                    place: state.place + (16 + 8 * count + base_len.bytes_as::<Bases>().count()),
                    left: state.left - 1,
                },
                outcome: Ok(()),
            }
        }
    }
}

// The size of a file whose sequences have all been added.
pub fn finish(state: Writing) -> Result<usize, Refusal>
    ensures { says result ≡ finish_answer state }
{
    if state.left != 0 {
        return Err(Refusal::BadRange);
    }
    if state.entry != state.stop {
        return Err(Refusal::BadRange);
    }
    if state.stop < HEADER {
        return Err(Refusal::BadRange);
    }
    if state.place < state.stop {
        return Err(Refusal::BadRange);
    }
    Ok(state.place)
}
