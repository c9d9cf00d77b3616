// Blocks: 16 bytes, byte 0 lowest. From src/block.rs (`Block`: low, high, `const_mul`, XOR, equality) and src/utils.rs (`xor_inplace`).
// A Block is kept as its low and its high 64 bits; in memory it is its 16 bytes.
// Secrets decide no branch and no index here: `const_mul` multiplies by the bit, `equals` looks at both words.
#![tactic(auto)]

ghost use Rattle.std.specs.Prelude.{◌≡◌, ◌+◌, ◌≤◌, ◌<◌, length, get_or};
ghost use Rattle.algebra.specs.Group.{sel, odd, num};
ghost use Rattle.block.specs.Block.{word_at, block_at, eq_block, le8, bytes_of, xor_inplace};
ghost use Rattle.block.specs.Group.{blocks};

use algebra::Xor;

// The low and the high 64 bits.
#[derive(Clone, Copy)]
pub struct Block(pub u64, pub u64);

impl Block {
    // All bits 0.
    pub fn zero() -> Block
        ensures { result ≡ blocks.nil }
    {
        Block(0, 0)
    }

    pub fn low(self) -> u64
        ensures { result ≡ self.0 }
    {
        self.0
    }

    pub fn high(self) -> u64
        ensures { result ≡ self.1 }
    {
        self.1
    }

    pub fn xor(self, o: Block) -> Block
        ensures { result ≡ blocks.op self o }
    {
        Block(self.0 ^ o.0, self.1 ^ o.1)
    }

    // The Block where b is 1, else zero: by a product, so that b decides no branch.
    pub fn const_mul(self, b: bool) -> Block
        ensures { result ≡ sel blocks b self }
    {
        let k = b as u64;
        Block(self.0 * k, self.1 * k)
    }

    // Both words are compared, whatever the first says.
    pub fn equals(self, o: Block) -> bool
        ensures { result ≡ eq_block self o }
    {
        (self.0 == o.0) & (self.1 == o.1)
    }
}

impl Xor for Block {
    ghost group = { blocks };

    fn zero() -> Block {
        Block::zero()
    }

    fn xor(self, o: Block) -> Block {
        Block::xor(self, o)
    }
}

// The 8 bytes at `at`.
pub fn load64(s: &[u8], at: usize) -> u64
    requires { at + 8 ≤ length s.now }
    ensures { result ≡ word_at s.now at }
{
    u64::from_le_bytes(s[at..at + 8].try_into().unwrap())
}

// The 16 bytes at `at`.
pub fn load(s: &[u8], at: usize) -> Block
    requires { at + 16 ≤ length s.now }
    ensures { result ≡ block_at s.now at }
{
    let low = load64(s, at);
    let high = load64(s, at + 8);
    Block(low, high)
}

// Writes w as the 8 bytes of out, low byte first.
pub fn store64(out: &mut [u8], w: u64)
    requires { length out.old ≡ 8 }
    ensures { out.new ≡ le8 w }
{
    out.copy_from_slice(&w.to_le_bytes());
}

// Writes b as the 16 bytes of out.
pub fn store(out: &mut [u8], b: Block)
    requires { length out.old ≡ 16 }
    ensures { out.new ≡ bytes_of b }
{
    store64(&mut out[0..8], b.0);
    store64(&mut out[8..16], b.1);
}

// The bit in the byte at `at`: its lowest binary digit, whatever the byte.
pub fn bit(s: &[u8], at: usize) -> bool
    requires { at < length s.now }
    ensures { result ≡ odd (get_or s.now at 0) }
{
    s[at] % 2 == 1
}

// A bit as a byte, 0 or 1.
pub fn bit_byte(b: bool) -> u8
    ensures { result ≡ num b }
{
    b as u8
}

// Adds b's bytes to a's, as far as both go; what a has beyond stays.
pub fn xor_inplace(a: &mut [u8], b: &[u8])
    ensures { a.new ≡ xor_inplace a.old b.now }
{
    for i in 0..a.len().min(b.len()) {
        a[i] ^= b[i];
    }
}
