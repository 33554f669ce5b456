// The own pieces of a chain: those that it shares with no other, as each before them; and a piece shortened in place.
#![tactic(auto, using(tables::proofs::Laws::totals, chain::proofs::Links::link_leads))]

ghost use Rattle.std.specs.Prelude.{◌≡◌, ◌+◌, ◌-◌, ◌≤◌, ◌<◌};
ghost use Rattle.rules.specs.Basics.{Is};
ghost use Rattle.rules.specs.Tables.{piece, set_piece, with_place};
ghost use Rattle.rules.specs.Bytes.{decode};
ghost use Rattle.rules.specs.Sound.{link_ok};
ghost use Rattle.tables.specs.Shape.{Shaped, Becomes};
ghost use Rattle.chain.specs.Opened.{Opened};
ghost use Rattle.own.specs.Own.{single, own_run, own_part};

use kinds::PieceNumber;
use layout::Shape;

// The own pieces of a chain: the link to the last (0 none), and the link after it.
#[derive(Clone, Copy)]
pub struct OwnRun {
    pub last: u16,
    pub next: u16,
}

// The own pieces that the first bytes of a chain overlap: their bytes, the link to the last (0 none), and the link after it.
#[derive(Clone, Copy)]
pub struct OwnPart {
    pub bytes: u32,
    pub last: u16,
    pub next: u16,
}

// Whether `link` leads to a piece of count 1: one with a single reference.
pub fn single(pool: &[u8], shape: Shape, link: u16) -> bool
    requires { Opened pool.now shape × Is (link_ok (decode pool.now) link) }
    ensures { result ≡ single (decode pool.now) link }
{
    link != 0 && tables::piece_count(pool, shape, PieceNumber(link - 1)) == 1
}

// The own pieces of the chain that starts at `link`: those of a single reference.
#[tactic(auto, using(tables::proofs::Laws::totals, crate::proofs::Own::runs))]
pub fn own_run(pool: &[u8], shape: Shape, link: u16) -> OwnRun
    requires { Opened pool.now shape × Is (link_ok (decode pool.now) link) }
    ensures { result ≡ own_run (decode pool.now) link }
{
    let mut last = 0;
    let mut next = link;
    while single(pool, shape, next) {
        last = next;
        next = tables::piece_next(pool, shape, PieceNumber(next - 1));
    }
    OwnRun { last, next }
}

// The own pieces from `link` on, up to the one in which the first `n` bytes end: those of a single reference.
#[tactic(auto, using(tables::proofs::Laws::totals, crate::proofs::Own::parts))]
pub fn own_part(pool: &[u8], shape: Shape, link: u16, n: u32) -> OwnPart
    requires { Opened pool.now shape × Is (link_ok (decode pool.now) link) }
    ensures { result ≡ own_part (decode pool.now) link n }
{
    let mut bytes = 0;
    let mut last = 0;
    let mut at = link;
    while bytes < n && single(pool, shape, at) {
        last = at;
        let d = PieceNumber(at - 1);
        bytes += chain::piece_bytes(pool, shape, d);
        at = tables::piece_next(pool, shape, d);
    }
    OwnPart {
        bytes,
        last,
        next: at,
    }
}

// Piece `d` loses its first `front` bytes and its last `back` bytes: a data window shortened in place.
pub fn shorten(pool: &mut [u8], shape: Shape, d: PieceNumber, front: u16, back: u16)
    requires shaped { Shaped pool.old shape × (d.0 < shape.pieces) }
    requires back_bound { (front + back ≤ (piece (decode pool.old) d.0).len) × ((piece (decode pool.old) d.0).offset + front < 65536) }
    ensures { Becomes pool.old pool.new shape
        (λ T. set_piece T d.0 (with_place (piece T d.0) ((piece T d.0).offset + front) ((piece T d.0).len - front - back))) }
{
    let offset = tables::piece_offset(pool, shape, d);
    let length = tables::piece_length(pool, shape, d);
    tables::set_piece_place(pool, shape, d, offset + front, length - front - back);
}
