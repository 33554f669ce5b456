// cut: a second slip on a range of a chain, over new pieces on the same buffers.
#![tactic(auto)]

ghost use Rattle.std.specs.Prelude.{◌≡◌, List, [], ℕ};
ghost use Rattle.kinds.specs.Serial.{slip_in};
ghost use Rattle.kinds.specs.SlipState.{state_of};
ghost use Rattle.kinds.specs.Outcome.{number_of};
ghost use Rattle.rules.specs.Tables.{slip};
ghost use Rattle.rules.specs.Bytes.{decode};
ghost use Rattle.rules.specs.Sound.{lent};
ghost use Rattle.rules.specs.Rule.{name, no_view};
ghost use Rattle.rules.specs.Step.{Cut, perform};
ghost use Rattle.chain.specs.Opened.{Opened};
ghost use Rattle.answer.specs.Result.{result_of, Leaves};

use chain::Spot;
use kinds::{Outcome, Refusal, SlipName, SlipNumber};
use layout::Shape;

// How many pieces a range of `n` bytes overlaps, from those that its bytes and the bytes before it overlap: none where it is empty.
fn overlapped(n: u32, pieces: u16) -> u16
    ensures { (n ≡ 0 → result ≡ 0) × ((n ≡ 0 → ⊥) → result ≡ pieces) }
{
    if n == 0 { 0 } else { pieces }
}

// Gives a new slip the `n` bytes from `off` on of the chain of slip `s`: a handle on a range, with no bytes copied.
pub fn cut(pool: &mut [u8], shape: Shape, s: SlipName, off: u32, n: u32) -> Outcome
    requires { Opened pool.old shape }
    ensures by_index { (st : List ℕ) → result_of result pool.new st [] no_view
        ≡ perform (Cut (name s.slip.0 s.serial.0) off n) (lent pool.old st) }
    ensures leaves { Leaves result (state_of (slip (decode pool.new) (slip_in (number_of result)))) }
{
    let head = chain::enter(pool, shape, s)?;
    let Spot { link, into, .. } = chain::reach(pool, shape, head, off)?;
    let part = chain::extent(pool, shape, link, into as u64 + n as u64)?;
    let t: SlipNumber = room::lowest(pool, shape).ok_or(Refusal::Slips)?;
    let pieces = overlapped(n, part);
    let lowest = room::room_for(pool, shape, pieces as usize).ok_or(Refusal::Pieces)?;
    let first = build::copy_pieces(pool, shape, link, into, n, pieces, lowest, 0);
    Ok(build::under_new(pool, shape, t, first))
}
