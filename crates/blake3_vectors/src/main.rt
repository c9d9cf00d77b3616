// BLAKE3's published test vectors: the hash of the first n bytes of 0, 1, .., 250, 0, 1, .. at the 35 published lengths n.
// A line for each: the length, a space, the hash. The file stdout beside src/ was made by Debian's b3sum: make-stdout makes it again.
#![tactic(auto)]

use std::{fmt, io};

const LENGTHS: [usize; 35] = [
    0, 1, 2, 3, 4, 5, 6, 7, 8, 63, 64, 65, 127, 128, 129, 1023, 1024, 1025, 2048, 2049, 3072, 3073,
    4096, 4097, 5120, 5121, 6144, 6145, 7168, 7169, 8192, 8193, 16384, 31744, 102400,
];

// A hash, in hexadecimal.
#[derive(Clone, Copy)]
struct Hash([u8; 32]);

impl fmt::Display for Hash {
    fn fmt<W: fmt::Write>(&self, f: &mut fmt::Formatter<W>) -> fmt::Result {
        for byte in self.0 {
            write!(f, "{byte:02x}")?;
        }
        Ok(())
    }
}

// Writes the hash of the first n bytes of s, behind n: a line at once.
fn show(rt: &impl Print, s: &[u8], n: usize) -> io::Result<()> {
    let mut hash = [0u8; 32];
    if n <= s.len() {
        blake3::hash(&s[..n], &mut hash);
    }
    println!(rt; "{n} {}", Hash(hash))
}

fn fill(s: &mut [u8]) {
    for (i, byte) in s.iter_mut().enumerate() {
        *byte = (i % 251) as u8;
    }
}

fn main(rt: HostRuntime) -> io::Result<()> {
    let mut s = [0u8; 102400];
    fill(&mut s);
    for n in LENGTHS {
        show(&rt, &s, n)?;
    }
    Ok(())
}
