// The numbers of a session (document 01, "The call", "What each round means", "Checked by hand"): the order of the rounds and
// their names, what each round's messages are, and the length of every buffer that is lent. `bucket_size` is that of
// src/mpc/faand.rs; the rest stands there as lengths of vectors. Nothing here is secret.
// What a host may call takes any numbers; the others ask for those that opening lets through.
#![tactic(auto)]

ghost use Rattle.std.specs.Prelude.{◌≡◌, ℕ, ◌+◌, ◌*◌, ◌<◌, ◌≤◌, [], get_or};
ghost use Rattle.engine.specs.Area.{nth};
ghost use Rattle.plan.specs.Plan as S;
ghost use Rattle.plan.specs.Plan.{echo?, is_round, next_round, bucket_size, bits_count, r_blocks, r_len, kind_of, count_due, dm_len, list_len};
ghost use Rattle.plan.specs.Plan.{msg_len, parties?, in_range, InRange, Listed, bits_len, shares_len, masks_len, pairs_len, out_len, r_due, sent_up_to};
ghost use Rattle.plan.specs.Names.{names, round_name};

use message::Kind;

// The rounds by name, all but the echoes.
pub const RNG_COMM: usize = 1;

pub const RNG_VER: usize = 3;

pub const PAIR_COMM: usize = 4;

pub const PAIR_VER: usize = 5;

pub const FABITN: usize = 6;

pub const FASHARE_COMM: usize = 8;

pub const FASHARE_VER: usize = 10;

pub const FASHARE_DIBI: usize = 12;

pub const HAAND: usize = 14;

pub const FLAAND: usize = 15;

pub const FLAAND_COMM: usize = 17;

pub const FLAAND_HASH: usize = 19;

pub const DVALUE: usize = 21;

pub const FAAND: usize = 22;

// Whether round k is an echo, of the round before it.
pub fn is_echo(k: usize) -> bool
    ensures { result ≡ echo? k }
{
    (k == 2) | (k == 7) | (k == 9) | (k == 11) | (k == 13) | (k == 16) | (k == 18) | (k == 20)
}

// Whether round k takes place among n parties.
pub fn is_round(n: usize, k: usize) -> bool
    ensures { result ≡ is_round n k }
{
    (1 <= k) & (k <= FAAND) & !((n == 2) & is_echo(k))
}

// The round after k, 1 after opening (k = 0), 0 after the last.
pub fn next_round(n: usize, k: usize) -> usize
    ensures { result ≡ next_round n k }
{
    if FAAND <= k {
        return 0;
    }
    if (n == 2) & is_echo(k + 1) {
        k + 2
    } else {
        k + 1
    }
}

// The round whose messages the call for round k writes (k = 0: opening); 0 for the last and for what is no round.
pub fn writes(n: usize, k: usize) -> usize
    ensures { result ≡ S.writes n k }
{
    if (k == 0) | is_round(n, k) {
        next_round(n, k)
    } else {
        0
    }
}

// The q-th party but i.
pub fn other(i: usize, q: usize) -> usize
    requires { q < 8 }
    ensures { result ≡ nth i q }
{
    if q < i { q } else { q + 1 }
}

// How many leaky ANDs make one AND.
pub fn bucket_size(l: usize) -> usize
    ensures { result ≡ bucket_size l }
{
    if 280000 <= l {
        3
    } else if 3100 <= l {
        4
    } else {
        5
    }
}

// The leaky ANDs of a session.
pub fn leaky(l: usize) -> usize
    requires { l ≤ 300000 }
    ensures { result ≡ S.leaky l }
{
    l * bucket_size(l)
}

// The records in the list of bits.
pub fn bits_count(l: usize) -> usize
    requires { l ≤ 300000 }
    ensures { result ≡ bits_count l }
{
    3 * leaky(l) + 160
}

// The Blocks of one string of r.
pub fn r_blocks(l: usize) -> usize
    requires { l ≤ 300000 }
    ensures { result ≡ r_blocks l }
{
    (bits_count(l) + 127) / 128
}

// The bytes of r, 120 strings.
pub fn r_len(l: usize) -> usize
    requires { l ≤ 300000 }
    ensures { result ≡ r_len l }
{
    120 * (16 * r_blocks(l))
}

// What the items of round k's list are.
pub fn kind_of(l: usize, k: usize) -> Kind
    ensures { result ≡ kind_of l k }
{
    match k {
        RNG_COMM | PAIR_COMM | FLAAND_COMM => Kind::Items(32, 0),
        RNG_VER | PAIR_VER => Kind::Items(1, 0),
        FABITN | FLAAND => Kind::Items(17, 1),
        FASHARE_COMM => Kind::Items(96, 0),
        FASHARE_VER => Kind::Dms,
        FASHARE_DIBI | FLAAND_HASH => Kind::Items(16, 0),
        HAAND => Kind::Items(2, 2),
        DVALUE => Kind::Dvalues(bucket_size(l) - 1),
        FAAND => Kind::Items(34, 2),
        _ => Kind::Options,
    }
}

// How many items are due in round k's list.
pub fn count_due(n: usize, l: usize, k: usize) -> usize
    requires { l ≤ 300000 }
    ensures { result ≡ count_due n l k }
{
    match k {
        RNG_COMM | PAIR_COMM => 1,
        RNG_VER | PAIR_VER => 32,
        FABITN => 120,
        FASHARE_COMM | FASHARE_VER | FASHARE_DIBI => 40,
        HAAND | FLAAND_COMM | FLAAND_HASH => leaky(l),
        FLAAND => leaky(l),
        DVALUE => l,
        FAAND => l,
        _ => n,
    }
}

// The bytes of a dm.
pub fn dm_len(n: usize) -> usize
    requires { (1 ≤ n) × (n ≤ 8) }
    ensures { result ≡ dm_len n }
{
    1 + 16 * (n - 1)
}

// The length of a message of `count` items.
fn list_len(n: usize, count: usize, kind: Kind) -> usize
    requires { Listed n count kind }
    ensures { result ≡ list_len n count kind }
{
    match kind {
        Kind::Items(size, _) => 8 + count * size,
        Kind::Dms => 8 + count * (8 + dm_len(n)),
        Kind::Dvalues(due) => 8 + count * (8 + due + (8 + 16 * due)),
        Kind::Options => 8 + count + 16 * (count - 2),
    }
}

// The length of a message of round k.
pub fn msg_len(n: usize, l: usize, k: usize) -> usize
    requires { InRange n l }
    ensures { result ≡ msg_len n l k }
{
    list_len(n, count_due(n, l, k), kind_of(l, k))
}

// Whether opening takes n.
pub fn parties(n: usize) -> bool
    ensures { result ≡ parties? n }
{
    (2 <= n) & (n <= 8)
}

// Whether opening takes n and l.
pub fn in_range(n: usize, l: usize) -> bool
    ensures { result ≡ in_range n l }
{
    parties(n) & (1 <= l) & (l <= 300000)
}

// The bytes of the list of bits.
pub fn bits_len(n: usize, l: usize) -> usize
    ensures { result ≡ bits_len n l }
{
    if in_range(n, l) {
        bits_count(l) * share::lent_len(n)
    } else {
        0
    }
}

// The bytes of alpha, of beta and of the results.
pub fn shares_len(n: usize, l: usize) -> usize
    ensures { result ≡ shares_len n l }
{
    if in_range(n, l) {
        l * share::lent_len(n)
    } else {
        0
    }
}

// The bytes of the masks.
pub fn masks_len(n: usize, l: usize) -> usize
    ensures { result ≡ masks_len n l }
{
    if in_range(n, l) { n * leaky(l) } else { 0 }
}

// The bytes of the pairwise seeds.
pub fn pairs_len(n: usize) -> usize
    ensures { result ≡ pairs_len n }
{
    if parties(n) { 32 * n } else { 0 }
}

// The bytes of the outgoing buffer of the call for round k, of opening for k = 0.
pub fn out_len(n: usize, l: usize, k: usize) -> usize
    ensures { result ≡ out_len n l k }
{
    if k == FAAND {
        return shares_len(n, l);
    }
    let next = writes(n, k);
    if next == 0 {
        return 0;
    }
    if in_range(n, l) {
        (n - 1) * msg_len(n, l, next)
    } else {
        0
    }
}

// The bytes of r that are lent with the call for round k.
pub fn r_due(n: usize, l: usize, k: usize) -> usize
    ensures { result ≡ r_due n l k }
{
    if writes(n, k) != FABITN {
        return 0;
    }
    if in_range(n, l) { r_len(l) } else { 0 }
}

// The bytes that one box sends to one other.
fn sent_to_one(n: usize, l: usize) -> usize
    requires { InRange n l }
    ensures { result ≡ sent_up_to n l 22 }
{
    let mut sum = 0;
    for k in 0..FAAND {
        if is_round(n, k + 1) {
            sum += msg_len(n, l, k + 1);
        }
    }
    sum
}

// The bytes that one box sends to all others in a session.
pub fn sent(n: usize, l: usize) -> usize
    ensures { result ≡ S.sent n l }
{
    if in_range(n, l) {
        (n - 1) * sent_to_one(n, l)
    } else {
        0
    }
}

// 16 bytes each, zeros behind the name; place 0 is for what is no round.
const NAMES: [[u8; 16]; 23] = [
    *b"\0\0\0\0\0\0\0\0\0\0\0\0\0\0\0\0",
    *b"RNG comm\0\0\0\0\0\0\0\0",
    *b"echo\0\0\0\0\0\0\0\0\0\0\0\0",
    *b"RNG ver\0\0\0\0\0\0\0\0\0",
    *b"RNG comm\0\0\0\0\0\0\0\0",
    *b"RNG ver\0\0\0\0\0\0\0\0\0",
    *b"fabitn\0\0\0\0\0\0\0\0\0\0",
    *b"echo\0\0\0\0\0\0\0\0\0\0\0\0",
    *b"fashare comm\0\0\0\0",
    *b"echo\0\0\0\0\0\0\0\0\0\0\0\0",
    *b"fashare ver\0\0\0\0\0",
    *b"echo\0\0\0\0\0\0\0\0\0\0\0\0",
    *b"fashare di_bi\0\0\0",
    *b"echo\0\0\0\0\0\0\0\0\0\0\0\0",
    *b"haand\0\0\0\0\0\0\0\0\0\0\0",
    *b"flaand\0\0\0\0\0\0\0\0\0\0",
    *b"echo\0\0\0\0\0\0\0\0\0\0\0\0",
    *b"flaand comm\0\0\0\0\0",
    *b"echo\0\0\0\0\0\0\0\0\0\0\0\0",
    *b"flaand hash\0\0\0\0\0",
    *b"echo\0\0\0\0\0\0\0\0\0\0\0\0",
    *b"dvalue\0\0\0\0\0\0\0\0\0\0",
    *b"faand\0\0\0\0\0\0\0\0\0\0\0",
];

// The name at place k: the table stands in one place.
fn name_at(k: usize) -> [u8; 16]
    requires { k ≤ 22 }
    ensures { result ≡ get_or names k [] }
{
    NAMES[k]
}

// The name of round k.
pub fn round_name(k: usize) -> [u8; 16]
    ensures { result ≡ round_name k }
{
    if k <= FAAND { name_at(k) } else { name_at(0) }
}
