// A pool drawn as text: a line for each slip, then the buffers and the pieces. Any bytes can be drawn.
#![tactic(auto, using(draw_slips::proofs::Text::lines))]

ghost use Rattle.std.specs.Prelude.{◌≡◌, ◌<◌, ◌≤◌, length};
ghost use Rattle.rules.specs.Bytes.{decode};
ghost use Rattle.rules.specs.Room.{free_pieces};
ghost use Rattle.tables.specs.Shape.{Shaped};
ghost use Rattle.page.specs.Page.{Wrote};
ghost use Rattle.draw.specs.Text.{hold_text, buffer_text, buffers_text, stock_text, tables_text, pool_text, fits_test};

use kinds::{BufferNumber, PieceNumber};
use layout::Shape;
use page::Page;

// Draws a buffer's count, or `free`: who holds a cluster.
fn put_hold(page: &mut Page<'_>, n: u16)
    ensures { Wrote page.old page.new (hold_text n) }
{
    if n == 0 {
        page.text(b" free");
    } else {
        page.tagged(b" x", u32::from(n));
    }
}

// Draws buffer `b`, as `b0 x3`: a cluster with its count.
fn put_buffer(page: &mut Page<'_>, pool: &[u8], shape: Shape, b: BufferNumber)
    requires { Shaped pool.now shape × (b.0 < shape.buffers) }
    ensures { Wrote page.old page.new (buffer_text (decode pool.now) b.0) }
{
    page.tagged(b"  b", u32::from(b.0));
    put_hold(page, tables::buffer_count(pool, shape, b));
}

// Draws every buffer on one line: the reference counts of the clusters.
fn put_buffers(page: &mut Page<'_>, pool: &[u8], shape: Shape)
    requires { Shaped pool.now shape }
    ensures { Wrote page.old page.new (buffers_text (decode pool.now)) }
{
    page.text(b"  buffers");
    for b in 0..shape.buffers {
        put_buffer(page, pool, shape, BufferNumber(b));
    }
    page.text(b"\n");
}

// How many pieces are free: a scan of the descriptors.
fn free_pieces(pool: &[u8], shape: Shape) -> u16
    requires { Shaped pool.now shape }
    ensures { (result ≡ length (free_pieces (decode pool.now))) × (result ≤ shape.pieces) }
{
    (0..shape.pieces)
        .filter(|d| tables::piece_count(pool, shape, PieceNumber(*d)) == 0)
        .count() as u16
}

// Draws how many pieces are in use and how many are free: the stock.
fn put_stock(page: &mut Page<'_>, pool: &[u8], shape: Shape)
    requires { Shaped pool.now shape }
    ensures { Wrote page.old page.new (stock_text (decode pool.now)) }
{
    let n = free_pieces(pool, shape);
    page.tagged(b"  pieces   ", u32::from(shape.pieces - n));
    page.tagged(b" in use, ", u32::from(n));
    page.text(b" free\n");
}

// Draws slips, buffers and pieces: the tables.
fn put_tables(page: &mut Page<'_>, pool: &[u8], shape: Shape)
    requires { Shaped pool.now shape }
    ensures { Wrote page.old page.new (tables_text (decode pool.now)) }
{
    draw_slips::put_slips(page, pool, shape);
    put_buffers(page, pool, shape);
    put_stock(page, pool, shape);
}

// Whether mark, version and length are a pool's: a header test.
fn fits(pool: &[u8]) -> bool
    ensures { result ≡ fits_test pool.now }
{
    layout::HEADER <= pool.len()
        && layout::marked(pool)
        && pool.len() == layout::pool_length(layout::shape_of(pool))
}

// Draws a pool, or `torn` where its header is none: a dump.
pub fn put_pool(page: &mut Page<'_>, pool: &[u8])
    ensures { Wrote page.old page.new (pool_text pool.now) }
{
    if fits(pool) {
        put_tables(page, pool, layout::shape_of(pool));
    } else {
        page.text(b"  torn\n");
    }
}
