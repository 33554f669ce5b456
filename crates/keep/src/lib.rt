// keep: the first bytes of a chain stay.
#![tactic(auto)]

ghost use Rattle.std.specs.Prelude.{◌≡◌, [], ◌+◌, ◌-◌, ◌≤◌, ◌<◌};
ghost use Rattle.kinds.specs.SlipState.{state_of};
ghost use Rattle.rules.specs.Tables.{slip, piece};
ghost use Rattle.rules.specs.Bytes.{decode};
ghost use Rattle.rules.specs.Sound.{lent};
ghost use Rattle.rules.specs.Rule.{name, no_view};
ghost use Rattle.rules.specs.Step.{Keep, perform};
ghost use Rattle.tables.specs.Shape.{Shaped, Becomes, Backs};
ghost use Rattle.chain.specs.Opened.{Opened};
ghost use Rattle.answer.specs.Result.{result_of, Leaves};
ghost use Rattle.keep.specs.Shorten.{shortened_by};

use kinds::{Outcome, PieceNumber, Refusal, SlipName};
use layout::Shape;

// The piece that `last` leads to loses its last `over` bytes, and nothing changes where `last` is 0: a data window shortened in place.
fn trim_end(pool: &mut [u8], shape: Shape, last: u16, over: u32)
    requires { Shaped pool.old shape × (last ≤ shape.pieces) × ((last ≡ 0 → ⊥) → (over ≤ (piece (decode pool.old) (last - 1)).len)
        × ((piece (decode pool.old) (last - 1)).offset + (piece (decode pool.old) (last - 1)).len < 65536)) }
    ensures { Becomes pool.old pool.new shape (λ T. shortened_by T last over) }
{
    if last == 0 {
        return;
    }
    own::shorten(pool, shape, PieceNumber(last - 1), 0, over as u16);
}

// Keeps the first `n` bytes of the chain of slip `s`, in its own pieces and in new ones for those that others hold: a chain trimmed at its end.
pub fn keep(pool: &mut [u8], shape: Shape, storage: &mut [u8], s: SlipName, n: u32) -> Outcome
    requires { Opened pool.old shape × Backs storage.old shape }
    ensures no_view_after { result_of result pool.new storage.new [] no_view
        ≡ perform (Keep (name s.slip.0 s.serial.0) n) (lent pool.old storage.old) }
    ensures leaves { Leaves result (state_of (slip (decode pool.new) s.slip.0)) }
{
    let head = chain::enter(pool, shape, s)?;
    let end = chain::reach(pool, shape, head, n)?;
    if end.link == 0 {
        return Ok(answer::done(pool, shape, s.slip, 0));
    }
    let own = own::own_part(pool, shape, head, n);
    if n <= own.bytes {
        trim_end(pool, shape, own.last, own.bytes - n);
        release::hang(pool, shape, storage, s.slip, own.last, 0);
        return Ok(answer::done(pool, shape, s.slip, 0));
    }
    let left = n - own.bytes;
    let (Ok(others) | Err(others)) = chain::part_of(pool, shape, own.next, left as u64);
    let lowest = room::room_for(pool, shape, others as usize).ok_or(Refusal::Pieces)?;
    let first = build::copy_pieces(pool, shape, own.next, 0, left, others, lowest, 0);
    release::hang(pool, shape, storage, s.slip, own.last, first);
    Ok(answer::done(pool, shape, s.slip, 0))
}
