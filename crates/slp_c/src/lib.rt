// What a C program links: each call of the driver under its own name, with its own promise, handed on to slp.
#![tactic(auto)]

ghost use Rattle.std.specs.Prelude.{◌≡◌, []};
ghost use Rattle.rules.specs.Sound.{lent};
ghost use Rattle.rules.specs.Rule.{name, no_view};
ghost use Rattle.rules.specs.Gather.{gather};
ghost use Rattle.rules.specs.Step.{Audit, Put, Free, Dup, Cut, Append, Drop, Keep, Pullup, Pack, Length, Read, Show, WireList, Open, Do, step};
ghost use Rattle.gather.specs.Sum.{gathered_of};
ghost use Rattle.calls.specs.Result.{result_of};
ghost use Rattle.calls_look.specs.Shown.{shown_of};
ghost use Rattle.slp.specs.Numbers.{numbers};

use calls_look::Shown;
use gather::Gathered;
use kinds::Answer;
use list::Stretch;

// open: writes the fresh pool.
#[unsafe(no_mangle)]
pub extern "C" fn slp_open(
    pool: &mut [u8],
    storage: &[u8],
    buffers: u16,
    pieces: u16,
    slips: u16,
) -> Answer
    ensures { result_of result pool.new storage.now [] no_view
        ≡ step (Open buffers pieces slips) (lent pool.old storage.now) }
{
    slp::slp_open(pool, storage, buffers, pieces, slips)
}

// audit: 0 if the pool is sound.
#[unsafe(no_mangle)]
pub extern "C" fn slp_audit(pool: &[u8], storage: &[u8]) -> Answer
    ensures { result_of result pool.now storage.now [] no_view ≡ step (Do Audit) (lent pool.now storage.now) }
{
    slp::slp_audit(pool, storage)
}

// put: bytes into fresh buffers, under a new slip.
#[unsafe(no_mangle)]
pub extern "C" fn slp_put(pool: &mut [u8], storage: &mut [u8], input: &[u8]) -> Answer
    ensures { result_of result pool.new storage.new [] no_view
        ≡ step (Do (Put input.now)) (lent pool.old storage.old) }
{
    slp::slp_put(pool, storage, input)
}

// free: a slip gives up its chain.
#[unsafe(no_mangle)]
pub extern "C" fn slp_free(pool: &mut [u8], storage: &mut [u8], slip: u16, serial: u16) -> Answer
    ensures { result_of result pool.new storage.new [] no_view
        ≡ step (Do (Free (name slip serial))) (lent pool.old storage.old) }
{
    slp::slp_free(pool, storage, slip, serial)
}

// dup: a new slip on the same chain.
#[unsafe(no_mangle)]
pub extern "C" fn slp_dup(pool: &mut [u8], storage: &[u8], slip: u16, serial: u16) -> Answer
    ensures { result_of result pool.new storage.now [] no_view
        ≡ step (Do (Dup (name slip serial))) (lent pool.old storage.now) }
{
    slp::slp_dup(pool, storage, slip, serial)
}

// cut: a new slip on a range of a chain.
#[unsafe(no_mangle)]
pub extern "C" fn slp_cut(
    pool: &mut [u8],
    storage: &[u8],
    slip: u16,
    serial: u16,
    offset: u32,
    length: u32,
) -> Answer
    ensures { result_of result pool.new storage.now [] no_view
        ≡ step (Do (Cut (name slip serial) offset length)) (lent pool.old storage.now) }
{
    slp::slp_cut(pool, storage, slip, serial, offset, length)
}

// append: one chain behind another.
#[unsafe(no_mangle)]
pub extern "C" fn slp_append(
    pool: &mut [u8],
    storage: &[u8],
    a: u16,
    a_serial: u16,
    b: u16,
    b_serial: u16,
) -> Answer
    ensures { result_of result pool.new storage.now [] no_view
        ≡ step (Do (Append (name a a_serial) (name b b_serial))) (lent pool.old storage.now) }
{
    slp::slp_append(pool, storage, a, a_serial, b, b_serial)
}

// drop: the first bytes of a chain go.
#[unsafe(no_mangle)]
pub extern "C" fn slp_drop(
    pool: &mut [u8],
    storage: &mut [u8],
    slip: u16,
    serial: u16,
    n: u32,
) -> Answer
    ensures { result_of result pool.new storage.new [] no_view
        ≡ step (Do (Drop (name slip serial) n)) (lent pool.old storage.old) }
{
    slp::slp_drop(pool, storage, slip, serial, n)
}

// keep: the first bytes of a chain stay.
#[unsafe(no_mangle)]
pub extern "C" fn slp_keep(
    pool: &mut [u8],
    storage: &mut [u8],
    slip: u16,
    serial: u16,
    n: u32,
) -> Answer
    ensures { result_of result pool.new storage.new [] no_view
        ≡ step (Do (Keep (name slip serial) n)) (lent pool.old storage.old) }
{
    slp::slp_keep(pool, storage, slip, serial, n)
}

// pullup: the first bytes of a chain in one piece.
#[unsafe(no_mangle)]
pub extern "C" fn slp_pullup(
    pool: &mut [u8],
    storage: &mut [u8],
    slip: u16,
    serial: u16,
    n: u32,
) -> Answer
    ensures { result_of result pool.new storage.new [] no_view
        ≡ step (Do (Pullup (name slip serial) n)) (lent pool.old storage.old) }
{
    slp::slp_pullup(pool, storage, slip, serial, n)
}

// pack: a chain's bytes put afresh under the same slip.
#[unsafe(no_mangle)]
pub extern "C" fn slp_pack(pool: &mut [u8], storage: &mut [u8], slip: u16, serial: u16) -> Answer
    ensures { result_of result pool.new storage.new [] no_view
        ≡ step (Do (Pack (name slip serial))) (lent pool.old storage.old) }
{
    slp::slp_pack(pool, storage, slip, serial)
}

// length: the byte count of a chain.
#[unsafe(no_mangle)]
pub extern "C" fn slp_length(pool: &[u8], storage: &[u8], slip: u16, serial: u16) -> Answer
    ensures { result_of result pool.now storage.now [] no_view
        ≡ step (Do (Length (name slip serial))) (lent pool.now storage.now) }
{
    slp::slp_length(pool, storage, slip, serial)
}

// read: copies bytes of a chain to the front of a lent output.
#[unsafe(no_mangle)]
pub extern "C" fn slp_read(
    pool: &[u8],
    storage: &[u8],
    slip: u16,
    serial: u16,
    offset: u32,
    length: u32,
    output: &mut [u8],
) -> Answer
    ensures { result_of result pool.now storage.now output.new no_view
        ≡ step (Do (Read (name slip serial) offset length output.old)) (lent pool.now storage.now) }
{
    slp::slp_read(pool, storage, slip, serial, offset, length, output)
}

// show: the first bytes of a chain in one stretch, of storage or of a lent scratch.
#[unsafe(no_mangle)]
pub extern "C" fn slp_show(
    pool: &[u8],
    storage: &[u8],
    slip: u16,
    serial: u16,
    n: u32,
    scratch: &mut [u8],
) -> Shown
    ensures { shown_of result pool.now storage.now scratch.new
        ≡ step (Do (Show (name slip serial) n scratch.old)) (lent pool.now storage.now) }
{
    slp::slp_show(pool, storage, slip, serial, n, scratch)
}

// list: where the pieces of a chain lie in storage, two numbers each, to the front of a lent list.
#[unsafe(no_mangle)]
pub extern "C" fn slp_list(
    pool: &[u8],
    storage: &[u8],
    slip: u16,
    serial: u16,
    list: &mut [u32],
) -> Answer
    ensures { result_of result pool.now storage.now list.new no_view
        ≡ step (Do (WireList (name slip serial) list.old)) (lent pool.now storage.now) }
{
    slp::slp_list(pool, storage, slip, serial, list)
}

// gather: the bytes that the records of a list name, copied out of storage to the front of a lent output, with no pool.
#[unsafe(no_mangle)]
pub extern "C" fn slp_gather(storage: &[u8], list: &[u32], output: &mut [u8]) -> Gathered
    ensures { gathered_of result output.new ≡ gather storage.now list.now output.old }
{
    slp::slp_gather(storage, list, output)
}

// stretches: list over a lent slice of records instead of numbers.
#[unsafe(no_mangle)]
pub extern "C" fn slp_stretches(
    pool: &[u8],
    storage: &[u8],
    slip: u16,
    serial: u16,
    list: &mut [Stretch],
) -> Answer
    ensures { result_of result pool.now storage.now (numbers list.new) no_view
        ≡ step (Do (WireList (name slip serial) (numbers list.old))) (lent pool.now storage.now) }
{
    slp::slp_stretches(pool, storage, slip, serial, list)
}
