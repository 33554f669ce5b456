// append: one chain behind another, over a's own pieces and new ones for those that others hold.
#![tactic(auto)]

ghost use Rattle.std.specs.Prelude.{◌≡◌, List, [], ℕ, ◌≤◌, ◌<◌};
ghost use Rattle.kinds.specs.SlipState.{state_of};
ghost use Rattle.rules.specs.Tables.{slip, piece, aged};
ghost use Rattle.rules.specs.Bytes.{decode};
ghost use Rattle.rules.specs.Sound.{lent};
ghost use Rattle.rules.specs.Release.{lowered};
ghost use Rattle.rules.specs.Rule.{name, no_view};
ghost use Rattle.rules.specs.Step.{Append, perform};
ghost use Rattle.tables.specs.Shape.{Shaped, Becomes};
ghost use Rattle.chain.specs.Opened.{Opened};
ghost use Rattle.answer.specs.Result.{result_of, Leaves};
ghost use Rattle.append.specs.Join.{good_name, Joinable, linked};

use kinds::{Outcome, PieceNumber, Refusal, SlipName, SlipNumber, Step};
use layout::Shape;
use own::OwnRun;

// The link `n` goes behind the piece that `last` leads to, or under slip `s` where that is 0: a tail linked.
fn link(pool: &mut [u8], shape: Shape, s: SlipNumber, last: u16, n: u16)
    requires { Shaped pool.old shape × (s.0 < shape.slips) × (last ≤ shape.pieces) × (n < 65535) }
    ensures { Becomes pool.old pool.new shape (λ T. linked T s.0 last n) }
{
    if last == 0 {
        tables::set_slip(pool, shape, s, n + 1);
        return;
    }
    tables::set_piece_next(pool, shape, PieceNumber(last - 1), n);
}

// Gives up a reference to piece `d`, which has another, so nothing is freed: a count lowered.
fn lower(pool: &mut [u8], shape: Shape, d: PieceNumber)
    requires { Shaped pool.old shape × (d.0 < shape.pieces) × (1 < (piece (decode pool.old) d.0).count) }
    ensures { Becomes pool.old pool.new shape (λ T. lowered T d.0) }
{
    let n = tables::piece_count(pool, shape, d);
    tables::set_piece_count(pool, shape, d, n - 1);
}

// Slip `b` is vacant, and its serial goes up; the answer is slip `a`'s: a handle retired.
fn retire(pool: &mut [u8], shape: Shape, a: SlipNumber, b: SlipNumber) -> Step
    requires { Shaped pool.old shape × (a.0 < shape.slips) × (b.0 < shape.slips) }
    ensures becomes { Becomes pool.old pool.new shape (λ T. aged T b.0) }
    ensures value { result ≡ record { state = state_of (slip (decode pool.new) a.0); number = 0 } }
{
    tables::age(pool, shape, b);
    answer::done(pool, shape, a, 0)
}

// The chain that `tail` starts, of slip `b`, goes behind that of slip `a`, which `head` starts: a chain concatenated, with its shared part copied.
fn join(
    pool: &mut [u8],
    shape: Shape,
    a: SlipNumber,
    b: SlipNumber,
    head: u16,
    tail: u16,
) -> Outcome
    requires { Opened pool.old shape × Joinable (decode pool.old) a.0 b.0 head tail }
    ensures by_index { (st : List ℕ) → result_of result pool.new st [] no_view
        ≡ perform (Append (good_name (decode pool.old) a.0) (good_name (decode pool.old) b.0)) (lent pool.old st) }
    ensures leaves { Leaves result (state_of (slip (decode pool.new) a.0)) }
{
    let OwnRun { last, next } = own::own_run(pool, shape, head);
    if next == 0 {
        tables::set_slip(pool, shape, b, 0);
        link(pool, shape, a, last, tail);
        return Ok(retire(pool, shape, a, b));
    }
    let pieces = chain::pieces_from(pool, shape, next);
    let lowest = room::room_for(pool, shape, pieces as usize).ok_or(Refusal::Pieces)?;
    let first = build::copy_pieces(pool, shape, next, 0, u32::MAX, pieces, lowest, tail);
    tables::set_slip(pool, shape, b, 0);
    link(pool, shape, a, last, first);
    lower(pool, shape, PieceNumber(next - 1));
    Ok(retire(pool, shape, a, b))
}

// Slip `a` comes to read as a and then b, and `b` is vacant: a chain concatenated.
pub fn append(pool: &mut [u8], shape: Shape, a: SlipName, b: SlipName) -> Outcome
    requires { Opened pool.old shape }
    ensures by_index { (st : List ℕ) → result_of result pool.new st [] no_view
        ≡ perform (Append (name a.slip.0 a.serial.0) (name b.slip.0 b.serial.0)) (lent pool.old st) }
    ensures leaves { Leaves result (state_of (slip (decode pool.new) a.slip.0)) }
{
    let head = chain::enter(pool, shape, a)?;
    let tail = chain::enter(pool, shape, b)?;
    if a.slip == b.slip {
        return Err(Refusal::Same);
    }
    if head == 0 {
        tables::set_slip(pool, shape, b.slip, 0);
        tables::set_slip(pool, shape, a.slip, tail + 1);
        return Ok(retire(pool, shape, a.slip, b.slip));
    }
    if tail == 0 {
        tables::set_slip(pool, shape, b.slip, 0);
        return Ok(retire(pool, shape, a.slip, b.slip));
    }
    join(pool, shape, a.slip, b.slip, head, tail)
}
