// Runs of flags set, a byte at a time where eight of them fill one.
ghost use Rattle.std.specs.Prelude.{◌≤◌, length};
ghost use Rattle.codes.specs.Codes.{up};
ghost use Rattle.dna.specs.Flags.{Marked};

// Sets the flags from position `from` up to position `to`.
pub fn mark_run(flags: &mut [u8], from: usize, to: usize)
    requires { (from ≤ to) × (up 1 to ≤ length flags.old) }
    ensures { Marked from to flags.old flags.new }
{
    let mut p = from;
    // By one flag or by eight: no fixed step.
    while p < to {
        if p % 8 == 0 && 8 <= to - p {
            flags[p / 8] = 0xff;
            p += 8;
        } else {
            flags[p / 8] = flags[p / 8] | (1 << (p % 8));
            p += 1;
        }
    }
}
