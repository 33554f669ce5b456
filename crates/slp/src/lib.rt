// The calls of the C driver: each hands on to its body, which audits the pool that it is lent and then does its operation.
#![tactic(auto)]

ghost use Rattle.std.specs.Prelude.{◌≡◌, []};
ghost use Rattle.kinds.specs.SlipState.{state_of};
ghost use Rattle.rules.specs.Tables.{slip as slip_at};
ghost use Rattle.rules.specs.Bytes.{decode};
ghost use Rattle.rules.specs.Sound.{lent};
ghost use Rattle.rules.specs.Rule.{name, no_view};
ghost use Rattle.rules.specs.Gather.{gather};
ghost use Rattle.rules.specs.Step.{Audit, Put, Free, Dup, Cut, Append, Drop, Keep, Pullup, Pack, Length, Read, Show, WireList, Open, Do, step};
ghost use Rattle.gather.specs.Sum.{gathered_of};
ghost use Rattle.answer.specs.Result.{result_of as came_to, Leaves};
ghost use Rattle.calls.specs.Result.{result_of};
ghost use Rattle.calls_look.specs.Shown.{shown_of};
ghost use Rattle.slp.specs.Numbers.{numbers};

use calls_look::Shown;
use gather::Gathered;
use kinds::{Answer, Outcome, SlipName};
use list::Stretch;

// open: writes the fresh pool.
pub fn slp_open(pool: &mut [u8], storage: &[u8], buffers: u16, pieces: u16, slips: u16) -> Answer
    ensures { result_of result pool.new storage.now [] no_view
        ≡ step (Open buffers pieces slips) (lent pool.old storage.now) }
{
    calls_open::open(pool, storage, buffers, pieces, slips).into()
}

// audit: 0 if the pool is sound.
pub fn slp_audit(pool: &[u8], storage: &[u8]) -> Answer
    ensures { result_of result pool.now storage.now [] no_view ≡ step (Do Audit) (lent pool.now storage.now) }
{
    calls_open::audit(pool, storage).into()
}

// put: bytes into fresh buffers, under a new slip.
pub fn slp_put(pool: &mut [u8], storage: &mut [u8], input: &[u8]) -> Answer
    ensures { result_of result pool.new storage.new [] no_view
        ≡ step (Do (Put input.now)) (lent pool.old storage.old) }
{
    calls_new::put(pool, storage, input).into()
}

// free: a slip gives up its chain.
pub fn slp_free(pool: &mut [u8], storage: &mut [u8], slip: u16, serial: u16) -> Answer
    ensures { result_of result pool.new storage.new [] no_view
        ≡ step (Do (Free (name slip serial))) (lent pool.old storage.old) }
{
    calls_change::free(pool, storage, SlipName::new(slip, serial)).into()
}

// dup: a new slip on the same chain.
pub fn slp_dup(pool: &mut [u8], storage: &[u8], slip: u16, serial: u16) -> Answer
    ensures { result_of result pool.new storage.now [] no_view
        ≡ step (Do (Dup (name slip serial))) (lent pool.old storage.now) }
{
    calls_new::dup(pool, storage, SlipName::new(slip, serial)).into()
}

// cut: a new slip on a range of a chain.
pub fn slp_cut(
    pool: &mut [u8],
    storage: &[u8],
    slip: u16,
    serial: u16,
    offset: u32,
    length: u32,
) -> Answer
    ensures { result_of result pool.new storage.now [] no_view
        ≡ step (Do (Cut (name slip serial) offset length)) (lent pool.old storage.now) }
{
    calls_new::cut(pool, storage, SlipName::new(slip, serial), offset, length).into()
}

// append: one chain behind another.
pub fn slp_append(
    pool: &mut [u8],
    storage: &[u8],
    a: u16,
    a_serial: u16,
    b: u16,
    b_serial: u16,
) -> Answer
    ensures { result_of result pool.new storage.now [] no_view
        ≡ step (Do (Append (name a a_serial) (name b b_serial))) (lent pool.old storage.now) }
{
    let a = SlipName::new(a, a_serial);
    let b = SlipName::new(b, b_serial);
    calls_change::append(pool, storage, a, b).into()
}

// drop: the first bytes of a chain go.
pub fn slp_drop(pool: &mut [u8], storage: &mut [u8], slip: u16, serial: u16, n: u32) -> Answer
    ensures { result_of result pool.new storage.new [] no_view
        ≡ step (Do (Drop (name slip serial) n)) (lent pool.old storage.old) }
{
    calls_change::drop(pool, storage, SlipName::new(slip, serial), n).into()
}

// keep: the first bytes of a chain stay.
pub fn slp_keep(pool: &mut [u8], storage: &mut [u8], slip: u16, serial: u16, n: u32) -> Answer
    ensures { result_of result pool.new storage.new [] no_view
        ≡ step (Do (Keep (name slip serial) n)) (lent pool.old storage.old) }
{
    calls_change::keep(pool, storage, SlipName::new(slip, serial), n).into()
}

// pullup: the first bytes of a chain in one piece.
pub fn slp_pullup(pool: &mut [u8], storage: &mut [u8], slip: u16, serial: u16, n: u32) -> Answer
    ensures { result_of result pool.new storage.new [] no_view
        ≡ step (Do (Pullup (name slip serial) n)) (lent pool.old storage.old) }
{
    calls_store::pullup(pool, storage, SlipName::new(slip, serial), n).into()
}

// pack: a chain's bytes put afresh under the same slip.
pub fn slp_pack(pool: &mut [u8], storage: &mut [u8], slip: u16, serial: u16) -> Answer
    ensures { result_of result pool.new storage.new [] no_view
        ≡ step (Do (Pack (name slip serial))) (lent pool.old storage.old) }
{
    calls_store::pack(pool, storage, SlipName::new(slip, serial)).into()
}

// length: the byte count of a chain.
pub fn slp_length(pool: &[u8], storage: &[u8], slip: u16, serial: u16) -> Answer
    ensures { result_of result pool.now storage.now [] no_view
        ≡ step (Do (Length (name slip serial))) (lent pool.now storage.now) }
{
    calls_look::length(pool, storage, SlipName::new(slip, serial)).into()
}

// read: copies bytes of a chain to the front of a lent output.
pub fn slp_read(
    pool: &[u8],
    storage: &[u8],
    slip: u16,
    serial: u16,
    offset: u32,
    length: u32,
    output: &mut [u8],
) -> Answer
    ensures { result_of result pool.now storage.now output.new no_view
        ≡ step (Do (Read (name slip serial) offset length output.old)) (lent pool.now storage.now) }
{
    let s = SlipName::new(slip, serial);
    calls_look::read(pool, storage, s, offset, length, output).into()
}

// show: the first bytes of a chain in one stretch, of storage or of a lent scratch.
pub fn slp_show(
    pool: &[u8],
    storage: &[u8],
    slip: u16,
    serial: u16,
    n: u32,
    scratch: &mut [u8],
) -> Shown
    ensures { shown_of result pool.now storage.now scratch.new
        ≡ step (Do (Show (name slip serial) n scratch.old)) (lent pool.now storage.now) }
{
    calls_look::show(pool, storage, SlipName::new(slip, serial), n, scratch).into()
}

// list: where the pieces of a chain lie in storage, two numbers each, to the front of a lent list.
pub fn slp_list(pool: &[u8], storage: &[u8], slip: u16, serial: u16, list: &mut [u32]) -> Answer
    ensures { result_of result pool.now storage.now list.new no_view
        ≡ step (Do (WireList (name slip serial) list.old)) (lent pool.now storage.now) }
{
    calls_look::list(pool, storage, SlipName::new(slip, serial), list).into()
}

// gather: the bytes that the records of a list name, copied out of storage to the front of a lent output, with no pool.
pub fn slp_gather(storage: &[u8], list: &[u32], output: &mut [u8]) -> Gathered
    ensures { gathered_of result output.new ≡ gather storage.now list.now output.old }
{
    gather::gather(storage, list, output)
}

// Writes the records of the chain of a slip to the front of `list`: a scatter list of structs.
fn stretches(pool: &[u8], storage: &[u8], s: SlipName, list: &mut [Stretch]) -> Outcome
    ensures does { came_to result pool.now storage.now (numbers list.new) no_view
        ≡ step (Do (WireList (name s.slip.0 s.serial.0) (numbers list.old))) (lent pool.now storage.now) }
    ensures leaves { Leaves result (state_of (slip_at (decode pool.now) s.slip.0)) }
{
    let begun = calls_look::begin(pool, storage, s, list.len())?;
    let mut at = begun.link;
    for stretch in list.iter_mut() {
        if at == 0 {
            break;
        }
        let record = list::record_at(pool, begun.shape, at);
        *stretch = record.stretch;
        at = record.next;
    }
    Ok(begun.step)
}

// stretches: list over a lent slice of records instead of numbers.
pub fn slp_stretches(
    pool: &[u8],
    storage: &[u8],
    slip: u16,
    serial: u16,
    list: &mut [Stretch],
) -> Answer
    ensures { result_of result pool.now storage.now (numbers list.new) no_view
        ≡ step (Do (WireList (name slip serial) (numbers list.old))) (lent pool.now storage.now) }
{
    stretches(pool, storage, SlipName::new(slip, serial), list).into()
}
