// The wire list of a chain in a sound pool: where its pieces lie in storage, and how long they are.
#![tactic(auto)]

ghost use Rattle.std.specs.Prelude.{◌≡◌, List, ℕ, ◌-◌, ◌*◌, ◌≤◌, length, take};
ghost use Rattle.kinds.specs.SlipState.{state_of};
ghost use Rattle.rules.specs.Basics.{Is};
ghost use Rattle.rules.specs.Tables.{slip, piece};
ghost use Rattle.rules.specs.Bytes.{decode};
ghost use Rattle.rules.specs.Chain.{follow};
ghost use Rattle.rules.specs.Sound.{link_ok, lent};
ghost use Rattle.rules.specs.Rule.{name, no_view};
ghost use Rattle.rules.specs.Read.{copied};
ghost use Rattle.rules.specs.List.{records};
ghost use Rattle.rules.specs.Step.{WireList, perform};
ghost use Rattle.chain.specs.Opened.{Opened};
ghost use Rattle.chain.specs.Length.{stretches_from};
ghost use Rattle.answer.specs.Result.{result_of, Leaves};
ghost use Rattle.list.specs.Begin.{begun};
ghost use Rattle.list.specs.Record.{record_of};

use kinds::{Outcome, PieceNumber, Refusal, SlipName, Step};
use layout::Shape;

// What a list begins with: its step, and where its records start and how many they are.
#[derive(Clone, Copy)]
pub struct Begun {
    pub step: Step,
    pub link: u16,
    pub pieces: u16,
}

// A record of a wire list, a stretch of storage by its first byte and its length: a scatter-gather entry.
#[repr(C)]
#[derive(Clone, Copy)]
pub struct Stretch {
    pub position: u32,
    pub length: u32,
}

// A record, and the link to the piece behind it.
#[derive(Clone, Copy)]
pub struct Record {
    pub stretch: Stretch,
    pub next: u16,
}

// What a list of the slip of a name begins with where there is room for `room` records, judged before any is written: a handle test and a segment count.
pub fn begin(pool: &[u8], shape: Shape, s: SlipName, room: usize) -> Result<Begun, Refusal>
    requires { Opened pool.now shape }
    ensures { result ≡ begun (decode pool.now) (name s.slip.0 s.serial.0) room }
{
    let link = chain::enter(pool, shape, s)?;
    let pieces = chain::pieces_from(pool, shape, link);
    if room < pieces as usize {
        return Err(Refusal::Narrow);
    }
    let step = answer::done(pool, shape, s.slip, pieces as u32);
    Ok(Begun { step, link, pieces })
}

// The record of the piece that `link` leads to, by way of a list of two numbers, and the link behind it: a scatter list's entry.
pub fn record_at(pool: &[u8], shape: Shape, link: u16) -> Record
    requires { Opened pool.now shape × Is (link_ok (decode pool.now) link) × (link ≡ 0 → ⊥) }
    ensures { result ≡ record_of (decode pool.now).stock (piece (decode pool.now) (link - 1)) }
{
    let mut pair = [0u32; 2];
    let next = write_records(pool, shape, link, 1, &mut pair);
    let stretch = Stretch {
        position: pair[0],
        length: pair[1],
    };
    Record { stretch, next }
}

// Writes the records of the first `n` pieces of the chain from `link` to the front of `list`, and answers the link behind them: a scatter list filled.
pub fn write_records(pool: &[u8], shape: Shape, link: u16, n: usize, list: &mut [u32]) -> u16
    requires opened { Opened pool.now shape × Is (link_ok (decode pool.now) link) }
    requires n_in_bounds { (n ≤ length (stretches_from (decode pool.now) link)) × (2 * n ≤ length list.old) }
    ensures list_after { list.new
        ≡ copied (records (decode pool.now).stock (take n (stretches_from (decode pool.now) link))) list.old }
    ensures value { result ≡ follow (decode pool.now) n link }
{
    let mut at = link;
    for k in 0..n {
        let d = PieceNumber(at - 1);
        let i = 2 * k;
        list[i] = transfer::position(pool, shape, d) as u32;
        list[i + 1] = chain::piece_bytes(pool, shape, d);
        at = tables::piece_next(pool, shape, d);
    }
    at
}

// Writes the records of the chain of the slip of a name to the front of `list`, two numbers each: position, then length.
pub fn list(pool: &[u8], shape: Shape, s: SlipName, list: &mut [u32]) -> Outcome
    requires { Opened pool.now shape }
    ensures by_index { (st : List ℕ) → result_of result pool.now st list.new no_view
        ≡ perform (WireList (name s.slip.0 s.serial.0) list.old) (lent pool.now st) }
    ensures leaves { Leaves result (state_of (slip (decode pool.now) s.slip.0)) }
{
    let b = begin(pool, shape, s, list.len() / 2)?;
    write_records(pool, shape, b.link, b.pieces as usize, list);
    Ok(b.step)
}
