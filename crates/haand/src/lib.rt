// Round 14, `fhaand` of src/mpc/faand.rs: the half AND (WRK17b, Pi_HaAND), what is sent: the bits H stand in the rows of LEAKY (crate
// haand_rows). Bits, MACs, keys, delta and masks are secret: they decide no branch and no index.
#![tactic(auto)]

ghost use Rattle.std.specs.Prelude.{◌≡◌, ◌+◌, ◌-◌, ◌*◌, ◌<◌, ◌≤◌, length, get_or};
ghost use Rattle.algebra.specs.Group.{odd};
ghost use Rattle.share.specs.Record.{record_len};
ghost use Rattle.plan.specs.Plan as Plan;
ghost use Rattle.engine.specs.Area.{to_others};
ghost use Rattle.rounds.specs.Area.{MASKS, BITS, LEAKY, at};
ghost use Rattle.rounds.specs.Table as Table;
ghost use Rattle.rounds.specs.Haand as R;
ghost use Rattle.area.specs.Given.{Ranged, Work};
ghost use Rattle.haand.specs.Given.{RowsAndMasks, LeakyKept};
ghost use Rattle.haand.specs.Sent as S;

use engine::Frame;

// The mask for party k at position t.
pub fn mask_bit(masks: &[u8], f: Frame, k: usize, t: usize) -> bool
    requires l_bound { (f.l ≤ 300000) × ((k < f.n) × (t < Plan.leaky f.l)) }
    requires masks_len { length masks.now ≡ f.n * Plan.leaky f.l }
    ensures { result ≡ odd (get_or masks.now (k * Plan.leaky f.l + t) 0) }
{
    block::bit(masks, k * plan::leaky(f.l) + t)
}

// The bytes before the first item of a message, and of an item.
const COUNT: usize = 8;

const ITEM: usize = 2;

// The item for party k at position t. Its bits H stand in the rows of LEAKY.
fn put_item(out: &mut [u8], rows: &[u8], masks: &[u8], recs: &[u8], f: Frame, k: usize, t: usize)
    requires out_len { (length out.old ≡ 2) × (k < f.n) }
    requires asked { (Ranged f) × (length recs.now ≡ Plan.bits_count f.l * record_len f.n) × (t < Plan.leaky f.l) }
    requires rows_and_masks { RowsAndMasks f rows.now masks.now }
    ensures { out.new ≡ S.item f rows.now masks.now recs.now k t }
{
    let at = area::entry_at(f, t, k);
    let mask = mask_bit(masks, f, k, t);
    let y = share::bit_at(recs, area::y_at(f, t));
    encode::put_two_bits(
        out,
        block::bit(rows, at + 16) ^ mask,
        block::bit(rows, at + 17) ^ mask ^ y,
    );
}

// The message to party k.
fn put_message(out: &mut [u8], rows: &[u8], masks: &[u8], recs: &[u8], f: Frame, k: usize)
    requires out_len { (length out.old ≡ 8 + Plan.leaky f.l * 2) × (k < f.n) }
    requires ranged { (Ranged f) × (length recs.now ≡ Plan.bits_count f.l * record_len f.n) }
    requires rows_and_masks { RowsAndMasks f rows.now masks.now }
    ensures { out.new ≡ S.message f rows.now masks.now recs.now k }
{
    let count = plan::leaky(f.l);
    encode::put_count(&mut out[..COUNT], count);
    lists::write_rows(
        &mut out[COUNT..],
        count,
        ITEM,
        |row, t| put_item(row, rows, masks, recs, f, k, t),
    );
}

// The messages to all others.
fn write_all(out: &mut [u8], rows: &[u8], masks: &[u8], recs: &[u8], f: Frame)
    requires out_len { length out.old ≡ (f.n - 1) * (8 + Plan.leaky f.l * 2) }
    requires ranged { (Ranged f) × (length recs.now ≡ Plan.bits_count f.l * record_len f.n) }
    requires rows_and_masks { RowsAndMasks f rows.now masks.now }
    ensures { out.new ≡ to_others f.n f.i (S.message f rows.now masks.now recs.now) }
{
    let len = COUNT + plan::leaky(f.l) * ITEM;
    rounds::to_others(
        out,
        f,
        len,
        |row, k| put_message(row, rows, masks, recs, f, k),
    );
}

// The messages, from the rows that `hold` kept.
pub fn write(out: &mut [u8], work: &[u8], f: Frame)
    requires work { Work f work.now }
    requires out_len { length out.old ≡ (f.n - 1) * Plan.msg_len f.n f.l Plan.HAAND }
    requires leaky_kept { LeakyKept f work.now }
    ensures { out.new ≡ to_others f.n f.i
        (R.haand_msg f (Table.delta f work.now) (at f MASKS work.now) (at f BITS work.now)) }
{
    let rows = area::section(work, f, area::LEAKY);
    let masks = area::section(work, f, area::MASKS);
    let recs = area::section(work, f, area::BITS);
    write_all(out, rows, masks, recs, f);
}
