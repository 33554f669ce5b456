// Whether a pool's links and entries are in range and every stored count is the number of its references: a reference count check.
#![tactic(auto)]

ghost use Rattle.std.specs.Prelude.{◌≡◌, ◌<◌, ◌≤◌, length};
ghost use Rattle.rules.specs.Tables.{is_blank};
ghost use Rattle.rules.specs.Bytes.{decode};
ghost use Rattle.rules.specs.Sound.{heads, lying};
ghost use Rattle.tables.specs.Entry.{piece_of};
ghost use Rattle.counts.specs.Ranges.{used_in_range, piece_in_range, counts_agree, buffers_agree};
ghost use Rattle.counts.specs.Counters.{Limited, tallied, lie_of, Countable, Hold, Cleared, references, SlipsCounted, PiecesCounted, ReferencesCounted};

use kinds::{BufferNumber, Number, PieceNumber, SlipNumber};
use layout::Shape;
use tables::Entry;

// Counts one reference more to the piece that the link `n` leads to.
fn count_link(refs: &mut [u16], n: u16)
    requires { (n ≤ length refs.old) × Countable refs.old }
    ensures { refs.new ≡ tallied refs.old n }
{
    if n > 0 {
        refs[n as usize - 1] += 1;
    }
}

// Whether each slip's link is in range, with the pieces that they head counted.
fn count_slips(pool: &[u8], shape: Shape, refs: &mut [u16]) -> bool
    requires { Limited pool.now shape × Cleared shape.pieces refs.old }
    ensures { SlipsCounted (decode pool.now) result refs.new }
{
    for s in 0..shape.slips {
        let n = tables::link_of(tables::slip(pool, shape, SlipNumber(s)));
        if n > shape.pieces {
            return false;
        }
        count_link(refs, n);
    }
    true
}

// Whether an entry is all zero.
fn blank(e: Entry) -> bool
    ensures { result ≡ is_blank (piece_of e) }
{
    e == Entry::default()
}

// Whether an entry lies inside a buffer of the pool and its next is in range.
fn inside(e: Entry, shape: Shape) -> bool
    ensures { result ≡ used_in_range shape.buffers shape.pieces (piece_of e) }
{
    e.buffer.below(shape.buffers)
        && e.len >= 1
        && BufferNumber::holds(e.offset, e.len)
        && e.next <= shape.pieces
}

// Whether an entry is all zero, or in use and in range.
fn entry_ok(e: Entry, shape: Shape) -> bool
    ensures { result ≡ piece_in_range shape.buffers shape.pieces (piece_of e) }
{
    if e.count == 0 {
        blank(e)
    } else {
        inside(e, shape)
    }
}

// Counts what a piece in use refers to: its next and its buffer.
fn count_entry(e: Entry, refs: &mut [u16], lies: &mut [u16])
    requires { (e.next ≤ length refs.old) × (lie_of (piece_of e) ≤ length lies.old) × Countable refs.old × Countable lies.old }
    ensures { (refs.new ≡ tallied refs.old e.next) × (lies.new ≡ tallied lies.old (lie_of (piece_of e))) }
{
    count_link(refs, e.next);
    if e.count > 0 {
        lies[e.buffer.0 as usize] += 1;
    }
}

// Whether each piece is all zero or in range, with what the pieces in use refer to counted.
fn count_pieces(pool: &[u8], shape: Shape, refs: &mut [u16], lies: &mut [u16]) -> bool
    requires { Limited pool.now shape × Hold shape.pieces refs.old (heads (decode pool.now)) × Cleared shape.buffers lies.old }
    ensures { PiecesCounted (decode pool.now) result refs.new lies.new }
{
    for d in 0..shape.pieces {
        let e = tables::entry_of(pool, shape, PieceNumber(d));
        if !entry_ok(e, shape) {
            return false;
        }
        count_entry(e, refs, lies);
    }
    true
}

// Whether each piece's count is the number of references counted.
fn counts_agree(pool: &[u8], shape: Shape, refs: &[u16]) -> bool
    requires { Limited pool.now shape × Hold shape.pieces refs.now (references (decode pool.now)) }
    ensures { result ≡ counts_agree (decode pool.now) }
{
    (0..shape.pieces).all(|d| {
        tables::piece_count(pool, shape, PieceNumber(d)) == refs[d as usize]
    })
}

// Whether each buffer's count is the number of pieces counted on it.
fn buffers_agree(pool: &[u8], shape: Shape, lies: &[u16]) -> bool
    requires { Limited pool.now shape × Hold shape.buffers lies.now (lying (decode pool.now)) }
    ensures { result ≡ buffers_agree (decode pool.now) }
{
    (0..shape.buffers).all(|b| {
        tables::buffer_count(pool, shape, BufferNumber(b)) == lies[b as usize]
    })
}

// Whether links and entries are in range and every count is the number of its references, which the counters of the pieces then hold.
#[tactic(auto, unfolding(crate::specs::Ranges::references_ok))]
pub fn references_ok(pool: &[u8], shape: Shape, refs: &mut [u16], lies: &mut [u16]) -> bool
    requires { Limited pool.now shape × Cleared shape.pieces refs.old × Cleared shape.buffers lies.old }
    ensures { ReferencesCounted (decode pool.now) result refs.new }
{
    count_slips(pool, shape, refs)
        && count_pieces(pool, shape, refs, lies)
        && counts_agree(pool, shape, refs)
        && buffers_agree(pool, shape, lies)
}
