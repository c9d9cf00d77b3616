// The Blocks of the r strings, lent or drawn (crate draw): a counter gives every Block by itself, so they are made as the sums of `fabitn`
// need them, a Block of each string at a time, and stored nowhere. The seed and what is drawn are known to all boxes and may be indices.
#![tactic(auto)]

ghost use Rattle.std.specs.Prelude.{◌≡◌, ℕ, ◌+◌, ◌*◌, ◌/◌, ◌%◌, ◌^◌, ◌<◌, ◌≤◌};
ghost use Rattle.block.specs.Block.{block_at};
ghost use Rattle.rbits.specs.Tables.{window_of};
ghost use Rattle.draw.specs.Strings.{strings};
ghost use Rattle.draw.specs.Given.{Whole};
ghost use Rattle.window.specs.Ready.{Ready};

use aes_counter::Cipher;
use block::Block;
use rbits::WINDOW;

// The strings as they are lent, or a seed and what its Blocks are made with.
#[derive(Clone, Copy)]
pub struct Strings<'a> {
    pub r: &'a [u8],
    pub cipher: Option<Cipher>,
    pub ghost ready: { Ready r.now cipher },
}

// 16 bytes are a seed. Not inlined, as what it calls isn't: what is made on the way to a cipher (17 KB, and each part of it by itself) lies
// on the stack no longer than that takes.
#[inline(never)]
pub fn prepare(r: &[u8]) -> Strings
    ensures { result.r.now ≡ r.now }
{
    let cipher = if draw::is_seed(r.len()) {
        Some(Cipher::new(r))
    } else {
        None
    };
    Strings { r, cipher }
}

impl<'a> Strings<'a> {
    // Blocks number c and d of the strings.
    pub fn two_at(&self, c: usize, d: usize) -> (Block, Block)
        requires c_bound { (c < 2 ^ 24) × (d < 2 ^ 24) }
        requires whole { Whole (c + 1) self.now.r.now × Whole (d + 1) self.now.r.now }
        ensures by_index { (count : ℕ) → c < count → result.0 ≡ block_at (strings count self.now.r.now) (c * 16) }
        ensures by_index_2 { (count : ℕ) → d < count → result.1 ≡ block_at (strings count self.now.r.now) (d * 16) }
    {
        match &self.cipher {
            Some(cipher) => cipher.encrypt_two(c as u64, d as u64),
            None => (block::load(self.r, c * 16), block::load(self.r, d * 16)),
        }
    }

    // Block q of each string, of `blocks` Blocks each, as words; two strings at a time.
    fn window(&self, out: &mut [u64; WINDOW], blocks: usize, q: usize)
        requires whole { Whole (120 * blocks) self.now.r.now }
        requires q_lt_blocks { (q < blocks) × (blocks ≤ 40000) }
        ensures { out.new ≡ window_of (strings (120 * blocks) self.now.r.now) (16 * blocks) q }
    {
        for k in 0..60 {
            let j = k * 2;
            let c = j * blocks + q;
            let (a, b) = self.two_at(c, c + blocks);
            let i = j * 2;
            out[i] = a.0;
            out[i + 1] = a.1;
            out[i + 2] = b.0;
            out[i + 3] = b.1;
        }
    }

    // The window of group g of 64 records: it serves two groups, and is made for the first of them.
    pub fn turn(&self, out: &mut [u64; WINDOW], blocks: usize, g: usize)
        requires whole { Whole (120 * blocks) self.now.r.now }
        requires g_bound { (g / 2 < blocks) × (blocks ≤ 40000) }
        requires out_value { g % 2 ≡ 1 → out.old ≡ window_of (strings (120 * blocks) self.now.r.now) (16 * blocks) (g / 2) }
        ensures { out.new ≡ window_of (strings (120 * blocks) self.now.r.now) (16 * blocks) (g / 2) }
    {
        if g % 2 == 0 {
            self.window(out, blocks, g / 2);
        }
    }
}
