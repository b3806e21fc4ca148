// Reading input into a lent buffer.
#![tactic(auto)]

ghost use Rattle.io.specs.Counts.{IsPrefixLen};

use std::io::Read;

// Reads until buf is full or the input ends, and returns how many bytes it put at the start of buf. A read that fails ends the
// input. One read may give fewer bytes than are there, so it is asked again, and the buffer is lent: no heap.
pub fn read_full(input: &mut impl Read, buf: &mut [u8]) -> usize
    ensures { IsPrefixLen result buf.new }
{
    let mut done = 0;
    while done < buf.len() {
        let n = input.read(&mut buf[done..]).unwrap_or(0);
        if n == 0 {
            break;
        }
        done += n;
    }
    done
}
