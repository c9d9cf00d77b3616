// What is printed of a session, and the checks on its results. A box's results, as its inputs, are records.
ghost use Rattle.std.specs.Prelude.{◌<◌, ◌≤◌};

use crate::boxes::Play;
use crate::deal::{key_off, mac_off, record_len};
use crate::table::{ALPHA, BETA, OUT_LEN, Room, Table, first};
use std::{fmt, io};

// ---- what boxes wrote

// The name of round k, without the zeros behind it.
#[derive(Clone, Copy)]
struct Name(usize);

impl fmt::Display for Name {
    fn fmt<W: fmt::Write>(&self, f: &mut fmt::Formatter<W>) -> fmt::Result {
        for b in plan::round_name(self.0) {
            if b == 0 {
                break;
            }
            f.write_char(char::from(b))?;
        }
        Ok(())
    }
}

// The length, and the first eight bytes of the BLAKE3.
#[derive(Clone, Copy)]
struct Digest<'a>(&'a [u8]);

impl fmt::Display for Digest<'_> {
    fn fmt<W: fmt::Write>(&self, f: &mut fmt::Formatter<W>) -> fmt::Result {
        let mut hash = [0; 32];
        blake3::hash(self.0, &mut hash);
        write!(f, "{} ", self.0.len())?;
        for b in &hash[..8] {
            write!(f, "{b:02x}")?;
        }
        Ok(())
    }
}

// Round k, and what each box sent for it.
pub(crate) fn round(rt: &impl Print, t: &Table, n: usize, len: usize, k: usize) -> io::Result<()> {
    print!(rt; "{k} {}", Name(k))?;
    for stretch in t.mail.as_chunks::<OUT_LEN>().0.iter().take(n) {
        print!(rt; ", {}", Digest(first(stretch, len)))?;
    }
    println!(rt; "")
}

// What each box wrote last.
fn written(rt: &impl Print, rooms: &[Room], len: usize) -> io::Result<()> {
    print!(rt; "results")?;
    for room in rooms {
        print!(rt; ", {}", Digest(first(&room.out, len)))?;
    }
    println!(rt; "")
}

// ---- results

// Whether box j's MAC for k is k's key of j, plus k's delta where j's bit is 1; their records start at `at`.
fn mac_holds(rooms: &[Room; 3], at: usize, j: usize, k: usize) -> bool
    requires { (j < 3) × (k < 3) × (at ≤ 7408) }
{
    let bit = rooms[j].out[at] == 1;
    let mac = block::load(&rooms[j].out, at + mac_off(k));
    let key = block::load(&rooms[k].out, at + key_off(j));
    let delta = block::load(&rooms[k].inputs.delta, 0);
    mac.equals(key.xor(delta.const_mul(bit)))
}

// At one position, for each box and each other.
fn macs_hold(rooms: &[Room; 3], at: usize, n: usize) -> bool
    requires { (at ≤ 7408) × (n ≤ 3) }
{
    let mut good = true;
    for j in 0..n {
        for k in 0..n {
            good &= j == k || mac_holds(rooms, at, j, k);
        }
    }
    good
}

fn right(good: bool) -> &'static str {
    if good { "holds" } else { "IS BROKEN" }
}

// One position of the results; alpha, beta and the AND are the XOR of the boxes' bits.
fn result(rt: &impl Print, rooms: &[Room; 3], at: usize, n: usize) -> io::Result<()>
    requires { (n ≤ 3) × (at ≤ 7408) }
{
    let mut alpha = 0;
    let mut beta = 0;
    let mut bit = 0;
    for room in &rooms[..n] {
        alpha ^= room.inputs.lists[ALPHA + at];
        beta ^= room.inputs.lists[BETA + at];
        bit ^= room.out[at];
    }
    println!(rt;
        "the MAC rule {}, alpha {alpha} and beta {beta} is {bit}: the AND {}",
        right(macs_hold(rooms, at, n)),
        right(alpha & beta == bit)
    )
}

pub(crate) fn results(rt: &impl Print, t: &Table, p: &Play) -> io::Result<()> {
    let len = plan::shares_len(p.n, p.l).min(1536);
    written(rt, &t.rooms[..p.n], len)?;
    for at in (0..len).step_by(record_len(p.n)) {
        result(rt, &t.rooms, at, p.n)?;
    }
    Ok(())
}

// ---- ends

// What a box sent in all, and the work areas.
pub(crate) fn left(rt: &impl Print, rooms: &[Room], sum: usize) -> io::Result<()> {
    let left = if rooms.iter().all(|room| room.log.zero) {
        "zero"
    } else {
        "NOT ZERO"
    };
    println!(rt; "a box sent {sum} bytes; the work areas are {left}")
}

pub(crate) fn ends(rt: &impl Print, rooms: &[Room]) -> io::Result<()> {
    for (i, room) in rooms.iter().enumerate() {
        println!(rt; "  box {i}: {}", room.log)?;
    }
    Ok(())
}

// ---- batches

// The lists that the boxes are lent.
pub(crate) fn lists(rt: &impl Print, p: &Play) -> io::Result<()> {
    print!(rt; "parties {}, results {} in batches of", p.n, p.l)?;
    for (i, counts) in p.batches[..p.n].iter().enumerate() {
        if i != 0 {
            print!(rt; ",")?;
        }
        for count in *counts {
            print!(rt; " {count}")?;
        }
    }
    println!(rt; "")
}

// What was written in batches, u, and whether it is what was in one, t.
pub(crate) fn batched(
    rt: &impl Print,
    t: &Table,
    u: &Table,
    p: &Play,
    sum: usize,
) -> io::Result<()> {
    let rooms = &u.rooms[..p.n];
    print!(rt; "messages")?;
    for room in rooms {
        print!(rt; ", {}", Digest(first(&room.all, sum)))?;
    }
    println!(rt; "")?;
    written(rt, rooms, plan::shares_len(p.n, p.l))?;
    if t.mail == u.mail && t.rooms.iter().zip(&u.rooms).all(|(a, b)| a.same(b)) {
        println!(rt; "the same as in one batch")
    } else {
        println!(rt; "NOT THE SAME as in one batch")
    }
}

// What the last call told each box: each batch's count and first record.
pub(crate) fn told(rt: &impl Print, rooms: &[Room]) -> io::Result<()> {
    for (i, room) in rooms.iter().enumerate() {
        print!(rt; "  box {i}: {}", room.log)?;
        if room.log.refusal.is_none() {
            print!(rt; "; told")?;
            let (pairs, _) = room.log.told.as_chunks::<2>();
            for [first, count] in pairs.iter().take_while(|pair| pair[1] != 0) {
                print!(rt; " {count} from {first};")?;
            }
            let clean = pairs
                .iter()
                .skip_while(|pair| pair[1] != 0)
                .all(|&pair| pair == [0, 0]);
            print!(rt;
                "{}",
                if clean {
                    " zeros else"
                } else {
                    " NOT ZEROS ELSE"
                }
            )?;
        }
        println!(rt; "")?;
    }
    Ok(())
}

// Whether each box was told of batches by one call alone.
pub(crate) fn quiet(rt: &impl Print, rooms: &[Room]) -> io::Result<()> {
    if rooms.iter().all(|room| room.log.loud == 1) {
        println!(rt; "every other call told zeros")
    } else {
        println!(rt; "ANOTHER CALL TOLD OF BATCHES")
    }
}
