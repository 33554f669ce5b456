// Walks over chains: what the operations read of them before they act.
#![tactic(auto)]

ghost use Rattle.std.specs.Prelude.{◌≡◌, true, ◌-◌, ◌<◌, length, leb};
ghost use Rattle.rules.specs.Basics.{Is};
ghost use Rattle.rules.specs.Tables.{piece, head_of, piece_total};
ghost use Rattle.rules.specs.Bytes.{decode};
ghost use Rattle.rules.specs.Chain.{own_at, total, first_length, length_of};
ghost use Rattle.rules.specs.Sound.{link_ok};
ghost use Rattle.rules.specs.Rule.{name};
ghost use Rattle.tables.specs.Shape.{Shaped};
ghost use Rattle.chain.specs.Opened.{Opened};
ghost use Rattle.chain.specs.Enter.{Enters};
ghost use Rattle.chain.specs.Length.{stretches_from, LegIs, LengthIs};
ghost use Rattle.chain.specs.Find.{spot_of, past_end, found};
ghost use Rattle.chain.specs.Part.{part_of, extent_of};

use kinds::{Number, PieceNumber, Refusal, SlipName, SlipNumber, SlipState};
use layout::Shape;

// A place in a chain, the link to a piece, the bytes of it before the place, and whether that piece is own: a cursor.
#[derive(Clone, Copy)]
pub struct Spot {
    pub link: u16,
    pub into: u32,
    pub own: bool,
}

// A part of a walk over next, the bytes of the pieces passed and the link behind them: a bounded step of a traversal.
#[derive(Clone, Copy)]
pub struct Leg {
    pub bytes: u32,
    pub link: u16,
}

// The most pieces of a leg: the longest chain takes 64 legs.
const LEG: u16 = 32;

// The link that slip `s` holds, 0 none and 1 + d piece d: a chain's head.
pub fn head_link(pool: &[u8], shape: Shape, s: SlipNumber) -> u16
    requires { Shaped pool.now shape × (s.0 < shape.slips) }
    ensures { result ≡ head_of (decode pool.now) s.0 }
{
    tables::link_of(tables::slip(pool, shape, s))
}

// The link that the slip of a name holds, refused where the slip is vacant, is not one of the pool's or has another serial:
// a handle looked up, and its generation compared.
pub fn enter(pool: &[u8], shape: Shape, s: SlipName) -> Result<u16, Refusal>
    requires { Opened pool.now shape }
    ensures { Enters (decode pool.now) shape (name s.slip.0 s.serial.0) result }
{
    if !s.slip.below(shape.slips) {
        return Err(Refusal::Slip);
    }
    if tables::serial(pool, shape, s.slip) != s.serial {
        return Err(Refusal::Slip);
    }
    let entry = tables::slip(pool, shape, s.slip);
    if !SlipState::from(entry).held() {
        return Err(Refusal::Slip);
    }
    Ok(entry - 1)
}

// The length of piece `d` in 32 bits, for sums: its data length.
pub fn piece_bytes(pool: &[u8], shape: Shape, d: PieceNumber) -> u32
    requires { Shaped pool.now shape × (d.0 < shape.pieces) }
    ensures { result ≡ (piece (decode pool.now) d.0).len }
{
    tables::piece_length(pool, shape, d) as u32
}

// The bytes of the first pieces from `link` on, at most `most` of them, and the link behind them: a bounded loop.
fn leg_from(pool: &[u8], shape: Shape, link: u16, most: u16) -> Leg
    requires { Opened pool.now shape × Is (link_ok (decode pool.now) link) }
    ensures { LegIs (decode pool.now) link most result }
{
    let mut bytes = 0;
    let mut at = link;
    for _ in 0..most {
        if at == 0 {
            return Leg { bytes, link: 0 };
        }
        let d = PieceNumber(at - 1);
        bytes += piece_bytes(pool, shape, d);
        at = tables::piece_next(pool, shape, d);
    }
    Leg { bytes, link: at }
}

// The length of the first pieces and the length of the rest, or zero; at most `allowed` pieces. Each level takes a leg, so that the stack stays small.
pub fn length_from(pool: &[u8], shape: Shape, link: u16, allowed: u16) -> u32
    requires { Opened pool.now shape × Is (link_ok (decode pool.now) link) }
    ensures { LengthIs (decode pool.now) link allowed result }
{
    if allowed <= LEG {
        return leg_from(pool, shape, link, allowed).bytes;
    }
    let first = leg_from(pool, shape, link, LEG);
    let next = first.link;
    if next == 0 {
        return first.bytes;
    }
    let rest = length_from(pool, shape, next, allowed - LEG);
    first.bytes + rest
}

// The length of the chain of slip `s`, in bytes: a walk from its head.
pub fn chain_length(pool: &[u8], shape: Shape, s: SlipNumber) -> u32
    requires { Opened pool.now shape × (s.0 < shape.slips) }
    ensures { result ≡ length_of (decode pool.now) s.0 }
{
    let link = head_link(pool, shape, s);
    length_from(pool, shape, link, shape.pieces)
}

// The bytes of the chain that starts at `link`, summed in a loop, for what copies them all: a packet length.
pub fn bytes_from(pool: &[u8], shape: Shape, link: u16) -> u32
    requires { Opened pool.now shape × Is (link_ok (decode pool.now) link) }
    ensures { result ≡ total (stretches_from (decode pool.now) link) }
{
    let mut bytes = 0;
    let mut at = link;
    while at != 0 {
        let d = PieceNumber(at - 1);
        bytes += piece_bytes(pool, shape, d);
        at = tables::piece_next(pool, shape, d);
    }
    bytes
}

// How many pieces the chain that starts at `link` has: a segment count.
pub fn pieces_from(pool: &[u8], shape: Shape, link: u16) -> u16
    requires { Opened pool.now shape × Is (link_ok (decode pool.now) link) }
    ensures { result ≡ length (stretches_from (decode pool.now) link) }
{
    let mut pieces = 0;
    let mut at = link;
    while at != 0 {
        pieces += 1;
        at = tables::piece_next(pool, shape, PieceNumber(at - 1));
    }
    pieces
}

// Whether the first piece of the chain from `link` has `n` bytes, as any chain has none: a contiguity test.
pub fn in_first(pool: &[u8], shape: Shape, link: u16, n: u32) -> bool
    requires { Opened pool.now shape × Is (link_ok (decode pool.now) link) }
    ensures { result ≡ leb n (first_length (stretches_from (decode pool.now) link)) }
{
    if link == 0 {
        return n == 0;
    }
    n <= piece_bytes(pool, shape, PieceNumber(link - 1))
}

// Whether piece `d` is own, where `own` says so of all before it: none has a second reference.
fn own_at(pool: &[u8], shape: Shape, own: bool, d: PieceNumber) -> bool
    requires { Shaped pool.now shape × (d.0 < shape.pieces) }
    ensures { result ≡ own_at (decode pool.now) own d.0 }
{
    own && tables::piece_count(pool, shape, d) == 1
}

// The place `off` bytes into the chain that starts at `link`, and whether its piece is own; its link is 0 past the end: a seek.
pub fn find(pool: &[u8], shape: Shape, link: u16, off: u32) -> Spot
    requires { Opened pool.now shape × Is (link_ok (decode pool.now) link) }
    ensures { result ≡ spot_of (piece_total (decode pool.now)) (decode pool.now) true link off }
{
    let mut at = link;
    let mut left = off;
    let mut own = true;
    while at != 0 {
        let d = PieceNumber(at - 1);
        let n = piece_bytes(pool, shape, d);
        own = own_at(pool, shape, own, d);
        if left < n {
            return Spot {
                link: at,
                into: left,
                own,
            };
        }
        left -= n;
        at = tables::piece_next(pool, shape, d);
    }
    Spot {
        link: 0,
        into: left,
        own,
    }
}

// Whether a place found lies past the end of its chain, which then has fewer bytes: a seek past the end.
pub fn past_end(at: Spot) -> bool
    ensures { result ≡ past_end at }
{
    at.link == 0 && 0 < at.into
}

// The same place, refused past the end: a checked seek.
pub fn reach(pool: &[u8], shape: Shape, link: u16, off: u32) -> Result<Spot, Refusal>
    requires { Opened pool.now shape × Is (link_ok (decode pool.now) link) }
    ensures { result ≡ found (spot_of (piece_total (decode pool.now)) (decode pool.now) true link off) }
{
    let at = find(pool, shape, link, off);
    if past_end(at) {
        return Err(Refusal::Range);
    }
    Ok(at)
}

// The pieces that the first `n` bytes from `link` overlap, as an error where the chain has fewer bytes: a bounded walk.
pub fn part_of(pool: &[u8], shape: Shape, link: u16, n: u64) -> Result<u16, u16>
    requires { Opened pool.now shape × Is (link_ok (decode pool.now) link) }
    ensures { result ≡ part_of (decode pool.now) link n }
{
    let mut at = link;
    let mut left = n;
    let mut pieces = 0;
    while 0 < left {
        if at == 0 {
            return Err(pieces);
        }
        let d = PieceNumber(at - 1);
        left = left.saturating_sub(piece_bytes(pool, shape, d) as u64);
        pieces += 1;
        at = tables::piece_next(pool, shape, d);
    }
    Ok(pieces)
}

// The same pieces, refused where the chain has fewer bytes: an extent.
pub fn extent(pool: &[u8], shape: Shape, link: u16, n: u64) -> Result<u16, Refusal>
    requires { Opened pool.now shape × Is (link_ok (decode pool.now) link) }
    ensures { result ≡ extent_of (decode pool.now) link n }
{
    part_of(pool, shape, link, n).map_err(|_| Refusal::Range)
}
