// Reads a sheet from standard input, and prints the pixels that it paints, or the number and the item that it is refused with.
#![tactic(auto)]

use input::read_full;
use std::io;
use text::text;

fn main(rt: HostRuntime) -> io::Result<()> {
    // One byte more than the longest sheet has, so that a longer one is seen to be too long.
    let mut space = [0; 60001];
    let n = read_full(&mut rt.stdin(), &mut space);
    // The pixels and the scratch words at hand, and room for the text of all these pixels.
    let mut px = [0; 16384];
    let mut scratch = [0.0; 16384];
    let mut out = [0; 147456];
    let k = text(&space[..n], &mut px, &mut scratch, &mut out);
    rt.write_all(&out[..k])
}
