// Where a line ends, and where its letters do.
ghost use Rattle.std.specs.Prelude.{◌≡◌, map, length};
ghost use Rattle.codes.specs.Words.{word, chars_of};
ghost use Rattle.fasta.specs.Report.{content};
ghost use Rattle.fasta.specs.Steps.{line_end, feed_mark};

use fields::inner::loads::load64;

// The top bit of each byte of x that is LF. Low seven bits that are not those of LF carry into the top bit, and nothing carries out of a byte.
fn line_feeds(x: u64) -> u64
    ensures { result ≡ word 8 (map feed_mark (chars_of 8 8 x)) }
{
    let y = x ^ 0x0a0a_0a0a_0a0a_0a0a;
    ((((y & 0x7f7f_7f7f_7f7f_7f7f) + 0x7f7f_7f7f_7f7f_7f7f) | y) & 0x8080_8080_8080_8080)
        ^ 0x8080_8080_8080_8080
}

// The number of bytes before the first LF, or all of them: eight at a time.
pub(crate) fn line_end(part: &[u8]) -> usize
    ensures { result ≡ line_end part.now }
{
    let mut i: usize = 0;
    // The loop behind goes on where this one stops.
    while 8 <= part.len() - i {
        let z = line_feeds(load64(part, i));
        if z != 0 {
            return i + u64::trailing_zeros(z) as usize / 8;
        }
        i += 8;
    }
    for at in i..part.len() {
        if part[at] == b'\n' {
            return at;
        }
    }
    part.len()
}

// The number of bytes of a line's content: all of them, or all but the CR that ends it.
pub(crate) fn content_length(line: &[u8]) -> usize
    ensures { result ≡ length (content line.now) }
{
    let size = line.len();
    if size == 0 {
        return 0;
    }
    if line[size - 1] == b'\r' {
        return size - 1;
    }
    size
}
