// AES-128 held to FIPS 197's own examples, and what is drawn from seeds to the Rust's. Written are: the 44 words of appendix A.1's key; the
// results of appendices B and C.1; the Blocks that seed 1 draws, a line for each number; and BLAKE3 of the Blocks that 1,000 seeds draw, for
// each seed those numbers in order. The numbers lie on both sides of 2^8, 2^16 and 2^32. make-stdout makes the file stdout: the standard's
// values as it prints them, and the Blocks of src/crypto/aes_rng.rs compiled (oracle/aes-blocks).
#![tactic(auto)]

ghost use Rattle.std.specs.Prelude.{◌≡◌, ◌^◌, ◌<◌, length};

use aes_key::Key;
use block::Block;
use std::{array, io};
use window::Strings;

const NUMBERS: [usize; 11] = [
    0, 1, 255, 256, 257, 65535, 65536, 65537, 4294967295, 4294967296, 4294967297,
];

// The Blocks of one seed, and of 1,000, in bytes.
const EACH: usize = 176;

const ALL: usize = 176000;

// Appendices A.1 and B: the key, and B's input.
const KEY: [u8; 16] = [
    0x2b, 0x7e, 0x15, 0x16, 0x28, 0xae, 0xd2, 0xa6, 0xab, 0xf7, 0x15, 0x88, 0x09, 0xcf, 0x4f, 0x3c,
];

const INPUT: [u8; 16] = [
    0x32, 0x43, 0xf6, 0xa8, 0x88, 0x5a, 0x30, 0x8d, 0x31, 0x31, 0x98, 0xa2, 0xe0, 0x37, 0x07, 0x34,
];

// Writes the bytes in hexadecimal, and a line end.
fn show(rt: &impl Print, s: &[u8]) -> io::Result<()> {
    for b in s {
        print!(rt; "{b:02x}")?;
    }
    println!(rt; "")
}

// Writes a key's words, a line for each.
fn show_words(rt: &impl Print, key: &[u8; 16]) -> io::Result<()> {
    for w in &Key::expand(&key[..]).words {
        show(rt, &w.to_le_bytes())?;
    }
    Ok(())
}

// Writes a Block under a key.
fn show_cipher(rt: &impl Print, key: &[u8; 16], input: &[u8; 16]) -> io::Result<()> {
    let k = Key::expand(&key[..]);
    let mut out = [0u8; 16];
    block::store(&mut out, aes::encrypt(&k, block::load(&input[..], 0)));
    show(rt, &out)
}

// Seed k of oracle/aes-blocks: byte i is (2i + 1)k + (i + 7)(k div 256) + (2k + 29)i^2 modulo 256, each summand made from the one before.
fn seed(k: usize) -> [u8; 16]
    requires { k < 1000 }
{
    let mut s = [0u8; 16];
    let mut a = k % 256;
    let mut b = k / 256 * 7 % 256;
    let mut c = 0;
    let mut d = (2 * k + 29) % 256;
    for x in &mut s {
        *x = ((a + b + c) % 256) as u8;
        a = (a + 2 * k) % 256;
        b = (b + k / 256) % 256;
        c = (c + d) % 256;
        d = (d + 2 * (2 * k + 29)) % 256;
    }
    s
}

// Puts Block i of those that a seed draws.
fn put(out: &mut [u8], i: usize, b: Block)
    requires { (length out.old ≡ 176) × (i < 11) }
{
    let a = i * 16;
    block::store(&mut out[a..a + 16], b);
}

// Puts Blocks c and d of a seed, as a session draws them, as Blocks i and i + 1.
fn put_two(out: &mut [u8], i: usize, seed: &Strings, c: usize, d: usize)
    requires out_len { (length out.old ≡ 176) × (i < 10) × (length seed.now.r.now ≡ 16) }
    requires c_bound { (c < 2 ^ 24) × (d < 2 ^ 24) }
{
    let (x, y) = seed.two_at(c, d);
    put(out, i, x);
    put(out, i + 1, y);
}

// Puts Block c of a seed by the cipher itself, as Block i.
fn put_one(out: &mut [u8], i: usize, key: &Key, c: u64)
    requires { (length out.old ≡ 176) × (i < 11) }
{
    put(out, i, aes::encrypt(key, Block(c, 0)));
}

// The Blocks below 2^24, as a session draws them.
fn draw_low(out: &mut [u8], s: &[u8; 16])
    requires { length out.old ≡ 176 }
{
    let seed = window::prepare(&s[..]);
    put_two(out, 0, &seed, 0, 1);
    put_two(out, 2, &seed, 255, 256);
    put_two(out, 4, &seed, 257, 65535);
    put_two(out, 6, &seed, 65536, 65537);
}

// Those around 2^32, by the cipher itself.
fn draw_high(out: &mut [u8], s: &[u8; 16])
    requires { length out.old ≡ 176 }
{
    let key = Key::expand(&s[..]);
    put_one(out, 8, &key, 4294967295);
    put_one(out, 9, &key, 4294967296);
    put_one(out, 10, &key, 4294967297);
}

// The Blocks that seed k draws.
fn draw_all(out: &mut [u8], k: usize)
    requires { (length out.old ≡ 176) × (k < 1000) }
{
    let s = seed(k);
    draw_low(out, &s);
    draw_high(out, &s);
}

// Writes the Blocks of one seed, each behind its number.
fn show_drawn(rt: &impl Print, s: &[u8]) -> io::Result<()> {
    for (n, b) in NUMBERS.iter().zip(s.chunks_exact(16)) {
        print!(rt; "{n} ")?;
        show(rt, b)?;
    }
    Ok(())
}

// Writes the BLAKE3 of s.
fn show_hash(rt: &impl Print, s: &[u8]) -> io::Result<()> {
    let mut hash = [0u8; 32];
    blake3::hash(s, &mut hash);
    show(rt, &hash)
}

fn main(rt: HostRuntime) -> io::Result<()> {
    show_words(&rt, &KEY)?;
    show_cipher(&rt, &KEY, &INPUT)?;
    let key = array::from_fn(|i| i as u8);
    let input = array::from_fn(|i| (i * 17) as u8);
    show_cipher(&rt, &key, &input)?;
    let mut all = [0u8; ALL];
    for (k, each) in all.chunks_exact_mut(EACH).enumerate() {
        draw_all(each, k);
    }
    show_drawn(&rt, &all[EACH..2 * EACH])?;
    show_hash(&rt, &all)
}
