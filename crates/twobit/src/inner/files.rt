// The header and the index of a file.
ghost use Rattle.std.specs.Prelude.{◌≡◌, ◌≤◌, Some, None};
ghost use Rattle.codes.specs.Codes.{pick};
ghost use Rattle.twobit.specs.Inner.{header_says, index_says, entry_found, KnownSound, behind_says, entry_sound};
ghost use Rattle.twobit.specs.Reading.{good_header, is_big, sequences, is_record, are_entries};

use crate::inner::records::record_at;
use crate::inner::{HEADER, SIGNATURE, VERSION};
use dna::inner::numbers::number_at;

// The byte order, and how many sequences.
#[derive(Clone, Copy)]
pub struct Header {
    pub big: bool,
    pub count: usize,
}

// The size of a name, the record's offset, and the byte behind the entry.
#[derive(Clone, Copy)]
pub struct Indexed {
    pub size: usize,
    pub offset: usize,
    pub end: usize,
}

// The byte behind a sound entry, and the offset of its record.
#[derive(Clone, Copy)]
pub struct Behind {
    pub end: usize,
    pub offset: usize,
}

// The header of a file that begins with a right one.
pub(crate) fn header_of(file: &[u8]) -> Option<Header>
    ensures { header_says result ≡
        pick (good_header file.now) (Some (is_big file.now, sequences file.now)) None }
{
    if file.len() < HEADER {
        return None;
    }
    let big = number_at(file, true, 4, 0) == SIGNATURE;
    if !big {
        if number_at(file, false, 4, 0) != SIGNATURE {
            return None;
        }
    }
    if number_at(file, big, 4, 4) != VERSION {
        return None;
    }
    Some(Header {
        big,
        count: number_at(file, big, 4, 8),
    })
}

// The entry at byte `at`, with an offset of k bytes, where it ends within the file.
pub(crate) fn entry_at(file: &[u8], big: bool, k: usize, at: usize) -> Option<Indexed>
    requires { k ≤ 8 }
    ensures { index_says result ≡ entry_found big k file.now at }
{
    let len = file.len();
    if len <= at {
        return None;
    }
    let size = file[at] as usize;
    if len - at - 1 < size + k {
        return None;
    }
    let behind = at + 1 + size;
    Some(Indexed {
        size,
        offset: number_at(file, big, k, behind),
        end: behind + k,
    })
}

// Whether a sound record stands at byte r. The one at `known`, if that lies in the file, is known to be sound and is not looked at again.
fn sound_record(file: &[u8], big: bool, r: usize, known: usize) -> bool
    requires { KnownSound big file.now known }
    ensures { result ≡ is_record big file.now r }
{
    if r == known {
        if r < file.len() {
            return true;
        }
    }
    record_at(file, big, r).is_some()
}

// The byte behind the entry at byte `at` and the offset of its record, where both are sound.
fn sound_entry(file: &[u8], big: bool, k: usize, at: usize, known: usize) -> Option<Behind>
    requires { (k ≤ 8) × KnownSound big file.now known }
    ensures { behind_says result ≡ entry_sound big k file.now at }
{
    let entry = entry_at(file, big, k, at)?;
    if !sound_record(file, big, entry.offset, known) {
        return None;
    }
    Some(Behind {
        end: entry.end,
        offset: entry.offset,
    })
}

// Whether n entries stand from byte `from` on, each with a sound record. A record that the entry before has too is looked at once.
pub(crate) fn are_entries(file: &[u8], big: bool, k: usize, n: usize, from: usize) -> bool
    requires { k ≤ 8 }
    ensures { result ≡ are_entries big file.now k n from }
{
    let mut at = from;
    let mut known = file.len();
    for _ in 0..n {
        let Some(behind) = sound_entry(file, big, k, at, known) else {
            return false;
        };
        at = behind.end;
        known = behind.offset;
    }
    true
}
