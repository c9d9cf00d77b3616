// ChaCha20 held to RFC 8439's own vectors, and the permutation to the text of order 6. Written are: the quarter rounds of 2.1.1 and 2.2.1, a
// line for each word; the blocks of 2.3.2 and of appendix A.1; the permutation of 17 numbers from the key 00 .. 1f; and BLAKE3 of
// permutations as they are kept, behind their lengths: from that key at lengths on both sides of a power of two, and then from a key for which
// a word is passed over. make-stdout makes the file stdout: the RFC's values as it prints them, and the lists by Python.
#![tactic(auto)]

ghost use Rattle.std.specs.Prelude.{◌≡◌, ◌*◌, ◌≤◌, length};

use std::io;

// 2.2.1: the state before QUARTERROUND(2, 7, 8, 13).
const STATE: [u32; 16] = [
    0x879531e0, 0xc5ecf37d, 0x516461b1, 0xc9a62f8a, 0x44c20ef3, 0x3390af7f, 0xd9fc690b, 0x2a5f714c,
    0x53372767, 0xb00a5631, 0x974c541a, 0x359e9963, 0x5c971061, 0x3d631689, 0x2098d9d6, 0x91dbd320,
];

// 2.3.2's nonce.
const NONCE: [u8; 12] = [0, 0, 0, 9, 0, 0, 0, 0x4a, 0, 0, 0, 0];

// The key whose first byte is this, and whose others are 0, is the first for which a word is passed over at this length: the keys are counted
// from 0, low byte first.
const NUMBER: u8 = 196;

const LONG: usize = 12400;

// The longest list, in bytes.
const ALL: usize = 49600;

// Writes the bytes in hexadecimal, and a line end.
fn show(rt: &impl Print, s: &[u8]) -> io::Result<()> {
    for b in s {
        print!(rt; "{b:02x}")?;
    }
    println!(rt;)
}

// Writes words as the RFC does, the high byte first.
fn show_words(rt: &impl Print, v: &[u32]) -> io::Result<()> {
    for w in v {
        println!(rt; "{w:08x}")?;
    }
    Ok(())
}

// 2.1.1
fn show_quarter(rt: &impl Print) -> io::Result<()> {
    let mut v = [0u32; 16];
    v[..4].copy_from_slice(&[0x11111111, 0x01020304, 0x9b8d6f43, 0x01234567]);
    chacha20::qround(&mut v, 0, 1, 2, 3);
    show_words(rt, &v[..4])
}

// 2.2.1
fn show_state(rt: &impl Print) -> io::Result<()> {
    let mut v = STATE;
    chacha20::qround(&mut v, 2, 7, 8, 13);
    show_words(rt, &v)
}

// Writes a block.
fn show_block(rt: &impl Print, key: &[u8; 32], counter: u32, nonce: &[u8; 12]) -> io::Result<()> {
    let mut out = [0u8; 64];
    chacha20::block(&mut out, key, counter, nonce);
    show(rt, &out)
}

// Appendix A.1
fn show_blocks(rt: &impl Print) -> io::Result<()> {
    let zero = [0u8; 32];
    let mut last = [0u8; 32];
    last[31] = 1;
    let mut second = [0u8; 32];
    second[1] = 0xff;
    let none = [0u8; 12];
    let mut two = [0u8; 12];
    two[11] = 2;
    show_block(rt, &zero, 0, &none)?;
    show_block(rt, &zero, 1, &none)?;
    show_block(rt, &last, 1, &none)?;
    show_block(rt, &second, 2, &none)?;
    show_block(rt, &zero, 0, &two)
}

// The key 00 .. 1f.
fn counted() -> [u8; 32] {
    std::array::from_fn(|i| i as u8)
}

// Draws a permutation of n numbers.
fn draw(section: &mut [u8], key: &[u8; 32], n: usize)
    requires { (length section.old ≡ n * 4) × (1 ≤ n) × (n ≤ 12400) }
{
    let words = chacha20::key_words(key);
    shuffle::draw(section, &words, n);
}

// Writes the permutation of 17 numbers.
fn show_list(rt: &impl Print, key: &[u8; 32]) -> io::Result<()> {
    let mut list = [0u8; 68];
    draw(&mut list, key, 17);
    for i in 0..17 {
        if 0 < i {
            print!(rt; " ")?;
        }
        let number = word::load(&list, i * 4);
        print!(rt; "{number}")?;
    }
    println!(rt;)
}

// Writes the BLAKE3 of s.
fn show_hash(rt: &impl Print, s: &[u8]) -> io::Result<()> {
    let mut hash = [0u8; 32];
    blake3::hash(s, &mut hash);
    show(rt, &hash)
}

// Writes the BLAKE3 of the permutation of n numbers.
fn show_section(rt: &impl Print, section: &mut [u8], key: &[u8; 32], n: usize) -> io::Result<()>
    requires { (length section.old ≡ n * 4) × (1 ≤ n) × (n ≤ 12400) }
{
    draw(section, key, n);
    show_hash(rt, section)
}

// Writes it behind n.
fn show_drawn(rt: &impl Print, key: &[u8; 32], n: usize) -> io::Result<()>
    requires { (1 ≤ n) × (n ≤ 12400) }
{
    let mut all = [0u8; ALL];
    print!(rt; "{n} ")?;
    show_section(rt, &mut all[..n * 4], key, n)
}

fn main(rt: HostRuntime) -> io::Result<()> {
    show_quarter(&rt)?;
    show_state(&rt)?;
    let key = counted();
    show_block(&rt, &key, 1, &NONCE)?;
    show_blocks(&rt)?;
    show_list(&rt, &key)?;
    show_drawn(&rt, &key, 16)?;
    show_drawn(&rt, &key, 17)?;
    show_drawn(&rt, &key, 1023)?;
    show_drawn(&rt, &key, 1024)?;
    show_drawn(&rt, &key, 1025)?;
    let mut passing = [0u8; 32];
    passing[0] = NUMBER;
    show_drawn(&rt, &passing, LONG)
}
