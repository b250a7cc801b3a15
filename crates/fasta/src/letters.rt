// More letters for the open record: up to 16,384 are kept, beyond that there are only too many.
ghost use Rattle.std.specs.Prelude.{◌≡◌, ◌+◌, length};
ghost use Rattle.stores.specs.Stores.{after, push_ascii};
ghost use Rattle.fasta.specs.Records.{at_most, lengthened};

use crate::reader::{BASES, FLAGS, Record};
use codes::units::Chars;
use codes::widths::{Bases, Flags};
use stores::calls::push_ascii;

// The sum, or 16,385 for any above 16,384.
fn sum_at_most(count: usize, more: usize) -> usize
    ensures { result ≡ at_most (count + more) }
{
    if count <= 16384 {
        if more <= 16384 - count {
            return count + more;
        }
    }
    16385
}

// The first letters of a record go over what the one before left in the buffers. The stores have room for 16,384, and refuse more.
pub(crate) fn add_letters(
    kept: Record,
    letters: &[u8],
    bases: &mut [u8; BASES],
    flags: &mut [u8; FLAGS],
) -> Record
    ensures says { result ≡ lengthened kept (length letters.now) }
    ensures bases { bases.new ≡ after 2 bases.old kept.count (push_ascii letters.now) }
    ensures flags { flags.new ≡ after 1 flags.old kept.count (push_ascii letters.now) }
{
    let count = Chars::new(kept.count);
    let _ = push_ascii::<Bases>(bases, count, letters);
    let _ = push_ascii::<Flags>(flags, count, letters);
    Record {
        number: kept.number,
        count: sum_at_most(kept.count, letters.len()),
    }
}
