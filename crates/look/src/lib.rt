// What a chain holds, looked at in a sound pool: its length, its bytes copied out, and its first bytes in one stretch.
#![tactic(auto)]

ghost use Rattle.std.specs.Prelude.{◌≡◌, ◌↔◌, List, [], ℕ, ◌≤◌, length};
ghost use Rattle.kinds.specs.SlipState.{state_of};
ghost use Rattle.rules.specs.Basics.{Is};
ghost use Rattle.rules.specs.Tables.{slip};
ghost use Rattle.rules.specs.Bytes.{decode};
ghost use Rattle.rules.specs.Chain.{first_length};
ghost use Rattle.rules.specs.Sound.{link_ok, lent};
ghost use Rattle.rules.specs.Rule.{name, no_view};
ghost use Rattle.rules.specs.Show.{view_of};
ghost use Rattle.rules.specs.Step.{Length, Read, perform};
ghost use Rattle.tables.specs.Shape.{Backs};
ghost use Rattle.chain.specs.Opened.{Opened};
ghost use Rattle.chain.specs.Length.{stretches_from};
ghost use Rattle.answer.specs.Result.{result_of, Leaves};
ghost use Rattle.look.specs.Place.{view_at, part_at, Lies};
ghost use Rattle.look.specs.Show.{Seen};

use chain::Spot;
use kinds::{BufferNumber, Outcome, PieceNumber, Refusal, SlipName, Step};
use layout::Shape;
use transfer::Cursor;

// Where a view lies: in storage from a byte on, or at the front of the scratch.
#[derive(Clone, Copy, PartialEq, Eq)]
pub enum Place {
    Storage(usize),
    Scratch,
}

// What a done show answers: its step, and where the bytes are seen.
#[derive(Clone, Copy)]
pub struct Shown {
    pub step: Step,
    pub place: Place,
}

// Whether there are `n` bytes at a place: a bounds test.
pub fn lies(storage: &[u8], scratch: &[u8], place: Place, n: usize) -> bool
    ensures { Is result ↔ Lies storage.now scratch.now place n }
{
    match place {
        Place::Storage(start) => start <= storage.len() && n <= storage.len() - start,
        Place::Scratch => n <= scratch.len(),
    }
}

// The `n` bytes at a place: a part of storage or a part of the scratch.
pub fn view<'a>(storage: &'a [u8], scratch: &'a [u8], place: Place, n: usize) -> &'a [u8]
    requires { Lies storage.now scratch.now place n }
    ensures { result.now ≡ part_at storage.now scratch.now place n }
{
    match place {
        Place::Storage(start) => &storage[start..start + n],
        Place::Scratch => &scratch[..n],
    }
}

// The byte count of the chain of the slip of a name: its length.
pub fn length(pool: &[u8], shape: Shape, s: SlipName) -> Outcome
    requires { Opened pool.now shape }
    ensures by_index { (st : List ℕ) → result_of result pool.now st [] no_view
        ≡ perform (Length (name s.slip.0 s.serial.0)) (lent pool.now st) }
    ensures leaves { Leaves result (state_of (slip (decode pool.now) s.slip.0)) }
{
    chain::enter(pool, shape, s)?;
    let n = chain::chain_length(pool, shape, s.slip);
    Ok(answer::done(pool, shape, s.slip, n))
}

// Copies `n` bytes from `off` on of the chain of the slip of a name to the front of `output`.
pub fn read(
    pool: &[u8],
    shape: Shape,
    storage: &[u8],
    s: SlipName,
    off: u32,
    n: u32,
    output: &mut [u8],
) -> Outcome
    requires { Opened pool.now shape × Backs storage.now shape }
    ensures no_view_after { result_of result pool.now storage.now output.new no_view
        ≡ perform (Read (name s.slip.0 s.serial.0) off n output.old) (lent pool.now storage.now) }
    ensures leaves { Leaves result (state_of (slip (decode pool.now) s.slip.0)) }
{
    let head = chain::enter(pool, shape, s)?;
    let Spot { link, into, .. } = chain::reach(pool, shape, head, off)?;
    chain::extent(pool, shape, link, into as u64 + n as u64)?;
    if output.len() < n as usize {
        return Err(Refusal::Narrow);
    }
    let from = Cursor { link, into };
    transfer::copy_out(pool, shape, storage, from, n, output);
    Ok(answer::done(pool, shape, s.slip, n))
}

// Where the first `n` bytes of the chain from `link` start in storage, which its first piece has; none start at 0: a data pointer.
fn start_of(pool: &[u8], shape: Shape, link: u16, n: u32) -> usize
    requires opened { Opened pool.now shape × Is (link_ok (decode pool.now) link) }
    requires n_bound { n ≤ first_length (stretches_from (decode pool.now) link) }
    ensures { view_at (Place.Storage result) ≡ view_of (decode pool.now).stock (stretches_from (decode pool.now) link) n }
{
    if n == 0 {
        return 0;
    }
    transfer::position(pool, shape, PieceNumber(link - 1))
}

// Shows the first `n` bytes of the chain of the slip of a name in one stretch, of storage or of the scratch.
pub fn show(
    pool: &[u8],
    shape: Shape,
    storage: &[u8],
    s: SlipName,
    n: u32,
    scratch: &mut [u8],
) -> Result<Shown, Refusal>
    requires { Opened pool.now shape × Backs storage.now shape }
    ensures { Seen result pool.now storage.now (name s.slip.0 s.serial.0) n scratch.old scratch.new }
{
    let link = chain::enter(pool, shape, s)?;
    if !BufferNumber::fits(n) {
        return Err(Refusal::Long);
    }
    if chain::in_first(pool, shape, link, n) {
        return Ok(Shown {
            step: answer::done(pool, shape, s.slip, n),
            place: Place::Storage(start_of(pool, shape, link, n)),
        });
    }
    chain::extent(pool, shape, link, n as u64)?;
    if scratch.len() < n as usize {
        return Err(Refusal::Narrow);
    }
    let from = Cursor { link, into: 0 };
    transfer::copy_out(pool, shape, storage, from, n, scratch);
    Ok(Shown {
        step: answer::done(pool, shape, s.slip, n),
        place: Place::Scratch,
    })
}
