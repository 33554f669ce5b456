// A chain drawn as text: its pieces one behind the other, and their length. No walk is longer than the pool's count of pieces.
#![tactic(auto, using(crate::proofs::Text::drawing))]

ghost use Rattle.std.specs.Prelude.{◌≡◌, ◌<◌};
ghost use Rattle.rules.specs.Tables.{piece, piece_total};
ghost use Rattle.rules.specs.Bytes.{decode};
ghost use Rattle.rules.specs.Chain.{walk, stretches, total, length_of};
ghost use Rattle.tables.specs.Shape.{Shaped};
ghost use Rattle.tables.specs.Entry.{piece_of};
ghost use Rattle.page.specs.Page.{Wrote};
ghost use Rattle.draw_chain.specs.Text.{times_text, piece_text, joined_text, rest_text, chain_text};

use kinds::{PieceNumber, SlipNumber};
use layout::Shape;
use page::Page;
use tables::Entry;

// The entry of piece `d`, or zeros past the last: a bounded descriptor load.
fn entry(pool: &[u8], shape: Shape, d: PieceNumber) -> Entry
    requires { Shaped pool.now shape }
    ensures { piece_of result ≡ piece (decode pool.now) d.0 }
{
    if shape.pieces <= d.0 {
        return Entry::default();
    }
    tables::entry_of(pool, shape, d)
}

// Draws a count above 1, as `x2`: the mark of what is shared.
fn put_times(page: &mut Page<'_>, n: u16)
    ensures { Wrote page.old page.new (times_text n) }
{
    if 1 < n {
        page.tagged(b"x", u32::from(n));
    }
}

// Draws piece `d`, as `p1[b1 0+88]x2`: a descriptor.
fn put_piece(page: &mut Page<'_>, d: PieceNumber, e: Entry)
    ensures { Wrote page.old page.new (piece_text d.0 (piece_of e)) }
{
    page.tagged(b"p", u32::from(d.0));
    page.tagged(b"[b", u32::from(e.buffer.0));
    page.tagged(b" ", u32::from(e.offset));
    page.tagged(b"+", u32::from(e.len));
    page.text(b"]");
    put_times(page, e.count);
}

// Draws piece `d` behind another: a further link of a chain.
fn put_joined(page: &mut Page<'_>, d: PieceNumber, e: Entry)
    ensures { Wrote page.old page.new (joined_text d.0 (piece_of e)) }
{
    page.text(b" > ");
    put_piece(page, d, e);
}

// Draws the pieces from `link` on behind another, at most `allowed`: a bounded walk.
fn put_rest(page: &mut Page<'_>, pool: &[u8], shape: Shape, link: u16, allowed: u16)
    requires { Shaped pool.now shape }
    ensures { Wrote page.old page.new (rest_text (decode pool.now) (walk allowed (decode pool.now) link)) }
{
    let mut next = link;
    for _ in 0..allowed {
        if next == 0 {
            return;
        }
        let d = PieceNumber(next - 1);
        let e = entry(pool, shape, d);
        put_joined(page, d, e);
        next = e.next;
    }
}

// Draws the pieces from `link` on, at most as many as the pool has: a chain.
pub fn put_chain(page: &mut Page<'_>, pool: &[u8], shape: Shape, link: u16)
    requires { Shaped pool.now shape }
    ensures { Wrote page.old page.new
        (chain_text (decode pool.now) (walk (piece_total (decode pool.now)) (decode pool.now) link)) }
{
    if shape.pieces == 0 || link == 0 {
        return;
    }
    let d = PieceNumber(link - 1);
    let e = entry(pool, shape, d);
    put_piece(page, d, e);
    put_rest(page, pool, shape, e.next, shape.pieces - 1);
}

// The length of the pieces from `link` on, at most `allowed`: a bounded walk.
fn length_from(pool: &[u8], shape: Shape, link: u16, allowed: u16) -> u32
    requires { Shaped pool.now shape }
    ensures { result ≡ total (stretches (decode pool.now) (walk allowed (decode pool.now) link)) }
{
    let mut sum = 0;
    let mut next = link;
    for _ in 0..allowed {
        if next == 0 {
            break;
        }
        let e = entry(pool, shape, PieceNumber(next - 1));
        sum += u32::from(e.len);
        next = e.next;
    }
    sum
}

// The length of the chain of slip `s`, of at most as many pieces as the pool has: a bounded walk.
pub fn chain_length(pool: &[u8], shape: Shape, s: SlipNumber) -> u32
    requires { Shaped pool.now shape × (s.0 < shape.slips) }
    ensures { result ≡ length_of (decode pool.now) s.0 }
{
    length_from(pool, shape, chain::head_link(pool, shape, s), shape.pieces)
}
