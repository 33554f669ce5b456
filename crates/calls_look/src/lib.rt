// The bodies of length, read, show and list, and what stretches begins with: each audits and then does its operation.
#![tactic(auto, using(calls::proofs::Laws::torn))]

ghost use Rattle.std.specs.Prelude.{◌≡◌, List, [], ℕ, ◌<◌, ◌^◌};
ghost use Rattle.kinds.specs.SlipState.{state_of};
ghost use Rattle.rules.specs.Tables.{slip};
ghost use Rattle.rules.specs.Bytes.{decode};
ghost use Rattle.rules.specs.Sound.{lent};
ghost use Rattle.rules.specs.Rule.{Name, name, no_view};
ghost use Rattle.rules.specs.Step.{Length, Read, Show, WireList, Do, step};
ghost use Rattle.look.specs.Place.{view_at, place_of};
ghost use Rattle.look.specs.Show.{place_shown};
ghost use Rattle.answer.specs.Result.{result_of, Leaves};
ghost use Rattle.calls_look.specs.Shown.{shown_as, view_in, shown_of, bytes_shown};
ghost use Rattle.calls_look.specs.Begin.{Begins};

use kinds::{Outcome, Refusal, SlipName, Step};
use layout::Shape;
use look::Place;

// What show answers to C: the view is `number` bytes from `start` on, of the scratch if `in_scratch` is 1, else of storage.
#[repr(C)]
#[derive(Clone, Copy)]
pub struct Shown {
    pub code: u16,
    pub number: u32,
    pub in_scratch: u16,
    pub start: u32,
}

// What slp_stretches begins with, its step, the pool's shape, and the link to its first record, 0 where there is none.
#[derive(Clone, Copy)]
pub struct Begun {
    pub step: Step,
    pub shape: Shape,
    pub link: u16,
}

// What show answers, as C receives it.
fn shown_of(r: Result<look::Shown, Refusal>) -> Shown
    requires { (view_at (place_shown r)).start < 2 ^ 32 }
    ensures { result ≡ shown_as r }
{
    let (code, number, place) = match r {
        Ok(x) => (0, x.step.number, x.place),
        Err(why) => (why.into(), 0, Place::Storage(0)),
    };
    match place {
        Place::Storage(start) => Shown {
            code,
            number,
            in_scratch: 0,
            start: start as u32,
        },
        Place::Scratch => Shown {
            code,
            number,
            in_scratch: 1,
            start: 0,
        },
    }
}

// The place that an answer of show names.
fn place_of(shown: Shown) -> Place
    ensures { result ≡ place_of (view_in shown) }
{
    if shown.in_scratch == 0 {
        return Place::Storage(shown.start as usize);
    }
    Place::Scratch
}

// The bytes that an answer of show shows, of the storage and the scratch lent to it: of a done one the first bytes of its slip, of a refused one none.
pub fn part<'a>(storage: &'a [u8], scratch: &'a [u8], shown: Shown) -> &'a [u8]
    ensures { (pool before : List ℕ) (s : Name) (n : ℕ)
        → shown_of shown pool storage.now scratch.now ≡ step (Do (Show s n before)) (lent pool storage.now)
        → result.now ≡ bytes_shown s n before (lent pool storage.now) }
{
    let place = place_of(shown);
    let n = shown.number as usize;
    if look::lies(storage, scratch, place, n) {
        return look::view(storage, scratch, place, n);
    }
    &storage[..0]
}

// length: the byte count of a chain.
pub fn length(pool: &[u8], storage: &[u8], s: SlipName) -> Outcome
    ensures does { result_of result pool.now storage.now [] no_view
        ≡ step (Do (Length (name s.slip.0 s.serial.0))) (lent pool.now storage.now) }
    ensures leaves { Leaves result (state_of (slip (decode pool.now) s.slip.0)) }
{
    let shape = audit::audit(pool, storage.len()).shape?;
    look::length(pool, shape, s)
}

// read: copies bytes of a chain to the front of a lent output.
pub fn read(
    pool: &[u8],
    storage: &[u8],
    s: SlipName,
    offset: u32,
    length: u32,
    output: &mut [u8],
) -> Outcome
    ensures does { result_of result pool.now storage.now output.new no_view
        ≡ step (Do (Read (name s.slip.0 s.serial.0) offset length output.old)) (lent pool.now storage.now) }
    ensures leaves { Leaves result (state_of (slip (decode pool.now) s.slip.0)) }
{
    let shape = audit::audit(pool, storage.len()).shape?;
    look::read(pool, shape, storage, s, offset, length, output)
}

// show: the first bytes of a chain in one stretch, of storage or of a lent scratch. Its answer is C's, whose start the audit keeps small.
pub fn show(pool: &[u8], storage: &[u8], s: SlipName, n: u32, scratch: &mut [u8]) -> Shown
    ensures { shown_of result pool.now storage.now scratch.new
        ≡ step (Do (Show (name s.slip.0 s.serial.0) n scratch.old)) (lent pool.now storage.now) }
{
    match audit::audit(pool, storage.len()).shape {
        Ok(shape) => shown_of(look::show(pool, shape, storage, s, n, scratch)),
        Err(why) => shown_of(Err(why)),
    }
}

// list: where the pieces of a chain lie in storage, two numbers each, to the front of a lent list.
pub fn list(pool: &[u8], storage: &[u8], s: SlipName, list: &mut [u32]) -> Outcome
    ensures does { result_of result pool.now storage.now list.new no_view
        ≡ step (Do (WireList (name s.slip.0 s.serial.0) list.old)) (lent pool.now storage.now) }
    ensures leaves { Leaves result (state_of (slip (decode pool.now) s.slip.0)) }
{
    let shape = audit::audit(pool, storage.len()).shape?;
    list::list(pool, shape, s, list)
}

// What slp_stretches begins with where there is room for `room` records: audited and judged before any is written.
pub fn begin(pool: &[u8], storage: &[u8], s: SlipName, room: usize) -> Result<Begun, Refusal>
    ensures { Begins pool.now storage.now (name s.slip.0 s.serial.0) room result }
{
    let shape = audit::audit(pool, storage.len()).shape?;
    let list::Begun { step, link, .. } = list::begin(pool, shape, s, room)?;
    Ok(Begun { step, shape, link })
}
