// Reading until a slice is full, from any reader: from a file, and from standard input, which may be a pipe that gives pieces.
#![tactic(auto)]

ghost use Rattle.std.specs.Prelude.{◌≡◌, ◌<◌, ◌≤◌, length, take, true, false};
ghost use Rattle.std.specs.Io.KnownBytes.{Consumes, IsAtEnd};

use std::fs;
use std::io::Read;
use std::rt::Files;

// How many bytes stand at the start of a slice, and whether a read failed behind them.
// Kept: two values beside each other, since the count holds whether a read failed or not.
#[derive(Clone, Copy)]
pub struct Filled {
    pub count: usize,
    pub failed: bool,
}

// Reads until the slice is full, the input ends or a read fails. What then stands at the start of the slice is what the reader gave, in
// its order; where no read failed, the slice is full or the reader at its end, and a read can fail only while there is room.
pub fn read_full<R: Read>(input: &mut R, bytes: &mut [u8]) -> Filled
    ensures bound { (result.count ≤ length bytes.new) × (length bytes.new ≡ length bytes.old) }
    ensures given { Consumes (R.remaining input.old) (R.remaining input.new) (take result.count bytes.new) }
    ensures whole { result.failed ≡ false → result.count < length bytes.new → IsAtEnd (R.remaining input.new) }
    ensures short { result.failed ≡ true → result.count < length bytes.new }
{
    let mut count = 0;
    // Kept: a while, since a read gives as many bytes as it likes.
    while count < bytes.len() {
        match input.read(&mut bytes[count..]) {
            Ok(0) => break,
            Ok(n) => count += n,
            Err(_) => return Filled {
                count,
                failed: true,
            },
        }
    }
    Filled {
        count,
        failed: false,
    }
}

// Reads a file into the slice, as far as it goes, and answers how many bytes; none where it can't be opened.
pub fn read_file(rt: &impl Files, path: &str, bytes: &mut [u8]) -> usize
    ensures { (result ≤ length bytes.new) × (length bytes.new ≡ length bytes.old) }
{
    match fs::open(rt, path) {
        Ok(mut file) => read_full(&mut file, bytes).count,
        Err(_) => 0,
    }
}

#[cfg(test)]
mod tests {
    use super::*;
    use std::io;
    use std::io::{Error, ErrorKind};

    // Gives the bytes 1, 2 and so on, one at each call, as far as `last`, and then fails or is at its end.
    #[derive(Drop)]
    struct Pieces {
        given: u8,
        last: u8,
        fails: bool,
    }

    impl Read for Pieces {
        fn read(&mut self, buf: &mut [u8]) -> io::Result<usize> {
            if buf.is_empty() {
                return Err(Error::new(ErrorKind::Other, "no room"));
            }
            if self.given >= self.last {
                if self.fails {
                    return Err(Error::new(ErrorKind::Other, "failed"));
                }
                return Ok(0);
            }
            self.given += 1;
            buf[0] = self.given;
            Ok(1)
        }
    }

    fn reader(last: u8, fails: bool) -> Pieces {
        Pieces {
            given: 0,
            last,
            fails,
        }
    }

    #[test]
    fn reads_each_piece_to_the_end(rt: HostRuntime) {
        let mut bytes = [9u8; 5];
        let read = read_full(&mut reader(3, false), &mut bytes);
        assert_eq!(rt; read.count, 3);
        assert!(rt; !read.failed);
        assert_eq!(rt; bytes, [1, 2, 3, 9, 9]);
    }

    #[test]
    fn reads_until_the_slice_is_full(rt: HostRuntime) {
        let mut bytes = [9u8; 2];
        let mut input = reader(4, true);
        assert_eq!(rt; read_full(&mut input, &mut bytes).count, 2);
        assert_eq!(rt; bytes, [1, 2]);
        assert_eq!(rt; read_full(&mut input, &mut []).count, 0);
        assert_eq!(rt; read_full(&mut input, &mut bytes).count, 2);
        assert_eq!(rt; bytes, [3, 4]);
    }

    #[test]
    fn keeps_what_came_before_a_failure(rt: HostRuntime) {
        let mut bytes = [9u8; 3];
        let read = read_full(&mut reader(1, true), &mut bytes);
        assert_eq!(rt; read.count, 1);
        assert!(rt; read.failed);
        assert_eq!(rt; bytes, [1, 9, 9]);
    }
}
