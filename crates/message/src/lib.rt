// Messages read: bincode legacy lists (document 01, "Messages"), where they lie in the incoming buffer. One reader for every kind of list,
// and one walk over a message: it tells the length used, and `form_of` what is wrong with it; `part` hands back the part of the buffer
// that holds a message. The crate encode writes them. From src/channel.rs (list checks) and src/utils/serde.rs of polytune.
#![tactic(auto)]

ghost use Rattle.std.specs.Prelude.{◌≡◌, true, ℕ, ◌+◌, ◌<◌, ◌≤◌, length, drop};
ghost use Rattle.lists.specs.Sect.{get};
ghost use Rattle.message.specs.Format as F;
ghost use Rattle.message.specs.Found.{Long, Told};
ghost use Rattle.message.specs.Read as R;
ghost use Rattle.refusals.specs.Reason.{code_of};

use refusals::Reason;

// What the items of a list are.
#[derive(Clone, Copy, Debug, PartialEq, Eq)]
pub enum Kind {
    // A fixed number of bytes, the first few of them bools: size, bools.
    Items(usize, usize),
    // A list of bytes of any length: a dm.
    Dms,
    // A list of bools and a list of Blocks, both of the count that is due: a bucket's d values and their MACs.
    Dvalues(usize),
    // An option of a Block: an entry of an echo.
    Options,
}

// The `count` bytes from `at` on, as far as s goes, are bools.
fn bools(s: &[u8], at: usize, count: usize) -> bool
    requires { at ≤ length s.now }
    ensures { result ≡ F.bools count (drop at s.now) }
{
    let end = at + count.min(s.len() - at);
    s[at..end].iter().all(|b| *b <= 1)
}

// The bytes of the list of items of `size` bytes at `at`. No count makes the product wrap.
fn vec_len(s: &[u8], at: usize, size: usize) -> Option<usize>
    requires { (at ≤ length s.now) × (0 < size) }
    ensures { Long (F.vec_len size (drop at s.now)) result }
{
    let left = s.len() - at;
    if left < 8 {
        return None;
    }
    let count = block::load64(s, at);
    let room = (left - 8) / size;
    if (room as u64) < count {
        return None;
    }
    Some(8 + count as usize * size)
}

// The bytes of the item of `size` bytes at `at`, the first `count` of them bools. An item takes at least a byte.
fn items_len(s: &[u8], at: usize, size: usize, count: usize) -> Option<usize>
    requires { at ≤ length s.now }
    ensures { Long (F.item_len (Kind.Items size count) (drop at s.now)) result }
{
    if size == 0 || s.len() - at < size || !bools(s, at, count) {
        return None;
    }
    Some(size)
}

// The bytes of the bucket at `at`: a list of bools and a list of Blocks.
fn dvalue_len(s: &[u8], at: usize, due: usize) -> Option<usize>
    requires { at ≤ length s.now }
    ensures { Long (F.item_len (Kind.Dvalues due) (drop at s.now)) result }
{
    let ds = vec_len(s, at, 1)?;
    if !bools(s, at + 8, ds - 8) {
        return None;
    }
    let macs = vec_len(s, at + ds, 16)?;
    Some(ds + macs)
}

// The bytes of the option at `at`: 0 alone, or 1 and a Block.
fn option_len(s: &[u8], at: usize) -> Option<usize>
    requires { at ≤ length s.now }
    ensures { Long (F.item_len Kind.Options (drop at s.now)) result }
{
    let left = s.len() - at;
    if left == 0 {
        return None;
    }
    match s[at] {
        0 => Some(1),
        1 if left < 17 => None,
        1 => Some(17),
        _ => None,
    }
}

// The bytes of the item at `at`.
fn item_len(kind: Kind, s: &[u8], at: usize) -> Option<usize>
    requires { at ≤ length s.now }
    ensures { Long (F.item_len kind (drop at s.now)) result }
{
    match kind {
        Kind::Items(size, count) => items_len(s, at, size, count),
        Kind::Dms => vec_len(s, at, 1),
        Kind::Dvalues(due) => dvalue_len(s, at, due),
        Kind::Options => option_len(s, at),
    }
}

// Where item t begins.
pub fn item_at(kind: Kind, m: &[u8], t: usize) -> usize
    requires { (F.decodes kind m.now ≡ true) × (t ≤ F.count_of m.now) }
    ensures { result ≡ F.item_at kind m.now t }
{
    let mut pos = 8;
    for k in 0..t {
        pos += item_len(kind, m, pos).unwrap_or(0);
    }
    pos
}

// Both lists of the bucket at `at` have `due` elements.
fn bucket_due(s: &[u8], at: usize, due: usize) -> bool
    requires { (at ≤ length s.now) × (0 < F.item_len (Kind.Dvalues due) (drop at s.now)) }
    ensures { result ≡ F.item_due (Kind.Dvalues due) (F.item_of (Kind.Dvalues due) (drop at s.now)) }
{
    block::load64(s, at) == due as u64 && block::load64(s, at + 8 + due) == due as u64
}

// The inner lists of the item at `at` have the counts that are due.
fn inner_due(kind: Kind, s: &[u8], at: usize) -> bool
    requires { (at ≤ length s.now) × (0 < F.item_len kind (drop at s.now)) }
    ensures { result ≡ F.item_due kind (F.item_of kind (drop at s.now)) }
{
    match kind {
        Kind::Dvalues(due) => bucket_due(s, at, due),
        _ => true,
    }
}

// What is read of a message: the length used, its count included, and whether the counts are those due.
#[derive(Clone, Copy)]
pub struct Reading {
    pub used: usize,
    pub due: bool,
}

// A list read item by item. Every item takes at least a byte, so the work is bounded by m's length, whatever the count says.
fn read_each(kind: Kind, count: usize, m: &[u8]) -> Option<Reading>
    ensures { Told kind count (F.read_of kind m.now) result }
{
    if m.len() < 8 {
        return None;
    }
    let found = block::load64(m, 0);
    let mut inner = true;
    let mut pos = 8;
    for t in 0..found {
        let len = item_len(kind, m, pos)?;
        inner = inner & inner_due(kind, m, pos);
        pos += len;
    }
    Some(Reading {
        used: pos,
        due: (found == count as u64) & inner,
    })
}

// A list of items of a fixed size read: where they lie is known from the count, and only their bools are looked at.
fn read_items(size: usize, flags: usize, count: usize, m: &[u8]) -> Option<Reading>
    requires { 0 < size }
    ensures { Told (Kind.Items size flags) count (F.read_of (Kind.Items size flags) m.now) result }
{
    let used = vec_len(m, 0, size)?;
    let found = block::load64(m, 0);
    let due = found == count as u64;
    if flags == 0 {
        return Some(Reading { used, due });
    }
    for k in 0..found as usize {
        if !bools(m, 8 + k * size, flags) {
            return None;
        }
    }
    Some(Reading { used, due })
}

// The reader.
pub fn read(kind: Kind, count: usize, m: &[u8]) -> Option<Reading>
    ensures { Told kind count (F.read_of kind m.now) result }
{
    match kind {
        Kind::Items(size, flags) if size != 0 => read_items(size, flags, count, m),
        _ => read_each(kind, count, m),
    }
}

// What is wrong with a message: it doesn't decode, doesn't end where its value ends, or hasn't the counts that are due.
pub fn form_of(kind: Kind, count: usize, m: &[u8]) -> Result<(), Reason>
    ensures { code_of result ≡ F.form_of kind count m.now }
{
    let Some(r) = read(kind, count, m) else {
        return Err(Reason::Undecodable);
    };
    if r.used != m.len() {
        return Err(Reason::TrailingBytes);
    }
    if !r.due {
        return Err(Reason::InvalidLength);
    }
    Ok(())
}

// A part of `len` bytes from `start` lies within a buffer of `total` bytes.
pub fn inside(total: usize, start: usize, len: usize) -> bool
    ensures { result ≡ R.inside total start len }
{
    start <= total && len <= total - start
}

// The part of the incoming buffer that holds a message.
pub fn part(incoming: &[u8], start: usize, len: usize) -> &[u8]
    requires { R.inside (length incoming.now) start len ≡ true }
    ensures { result.now ≡ get start len incoming.now }
{
    &incoming[start..start + len]
}
