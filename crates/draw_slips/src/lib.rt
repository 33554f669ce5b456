// The slips drawn as text: a line for each, with the length and the pieces of its chain.
#![tactic(auto, using(crate::proofs::Text::lines))]

ghost use Rattle.std.specs.Prelude.{◌≡◌, ◌<◌};
ghost use Rattle.rules.specs.Bytes.{decode};
ghost use Rattle.tables.specs.Shape.{Shaped};
ghost use Rattle.page.specs.Page.{Wrote};
ghost use Rattle.draw_slips.specs.Text.{length_text, state_text, slip_text, slips_text, width_at, widest};

use kinds::{SlipNumber, SlipState};
use layout::Shape;
use page::Page;

// How wide the length of slip `s` is drawn, 0 for a vacant one: a column's entry.
fn width_at(pool: &[u8], shape: Shape, s: SlipNumber) -> usize
    requires { Shaped pool.now shape × (s.0 < shape.slips) }
    ensures { result ≡ width_at (decode pool.now) s.0 }
{
    match tables::slip_state(pool, shape, s) {
        SlipState::Vacant => 0,
        _ => page::width(draw_chain::chain_length(pool, shape, s)),
    }
}

// The width of the longest length: a column's width.
fn widest(pool: &[u8], shape: Shape) -> usize
    requires { Shaped pool.now shape }
    ensures { result ≡ widest (decode pool.now) }
{
    (0..shape.slips)
        .map(|s| width_at(pool, shape, SlipNumber(s)))
        .max()
        .unwrap_or(0)
}

// Draws the length `n` of a chain, right-aligned to `w` digits: a column's entry.
fn put_length(page: &mut Page<'_>, n: u32, w: usize)
    ensures { Wrote page.old page.new (length_text w n) }
{
    page.text(b"  ");
    page.padded(n, w);
    page.text(b" bytes  ");
}

// Draws what slip `s` holds, with its length in `w` digits: a tagged handle.
fn put_state(page: &mut Page<'_>, pool: &[u8], shape: Shape, s: SlipNumber, w: usize)
    requires { Shaped pool.now shape × (s.0 < shape.slips) }
    ensures { Wrote page.old page.new (state_text (decode pool.now) w s.0) }
{
    match tables::slip_state(pool, shape, s) {
        SlipState::Vacant => page.text(b"  vacant"),
        SlipState::Empty => {
            put_length(page, 0, w);
            page.text(b"empty");
        }
        SlipState::Heads(_) => {
            put_length(page, draw_chain::chain_length(pool, shape, s), w);
            draw_chain::put_chain(page, pool, shape, chain::head_link(pool, shape, s));
        }
    }
}

// Draws the line of slip `s`: a handle and its chain.
fn put_slip(page: &mut Page<'_>, pool: &[u8], shape: Shape, s: SlipNumber, w: usize)
    requires { Shaped pool.now shape × (s.0 < shape.slips) }
    ensures { Wrote page.old page.new (slip_text (decode pool.now) w s.0) }
{
    page.tagged(b"  slip ", u32::from(s.0));
    page.serial(tables::serial(pool, shape, s));
    put_state(page, pool, shape, s, w);
    page.text(b"\n");
}

// Draws a line for each slip: the handle table.
pub fn put_slips(page: &mut Page<'_>, pool: &[u8], shape: Shape)
    requires { Shaped pool.now shape }
    ensures { Wrote page.old page.new (slips_text (decode pool.now)) }
{
    let w = widest(pool, shape);
    for s in 0..shape.slips {
        put_slip(page, pool, shape, SlipNumber(s), w);
    }
}
