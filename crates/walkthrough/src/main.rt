// One morning at a relay: document 01's ten marked rows, each with its call, its answer and the tables after it, and two shows, each with the bytes seen.
// Every slip is named at its first serial.
#![tactic(auto, using(crate::proofs::Shown::rows))]

ghost use Rattle.std.specs.Prelude.{◌≡◌, ◌++◌, length};
ghost use Rattle.rules.specs.Morning.{byte_run};
ghost use Rattle.rules.specs.Sound.{lent};
ghost use Rattle.rules.specs.Rule.{name};
ghost use Rattle.page.specs.Page.{Wrote};
ghost use Rattle.calls_look.specs.Shown.{view_in};
ghost use Rattle.walkthrough.specs.Row.{row_text, place_text, bytes_text, shown_text};

use calls_look::Shown;
use kinds::{Answer, SlipNumber};
use page::Page;
use reply::Reply;
use std::io;

// The pool and the storage of the morning: the state that its calls change.
#[derive(Drop)]
struct Morning {
    pool: [u8; 95],
    storage: [u8; 2048],
}

// Sets byte i to i mod 251: the morning's data.
#[tactic(auto, using(crate::proofs::Data::filling))]
fn fill_data(input: &mut [u8])
    ensures { input.new ≡ byte_run 0 (length input.old) }
{
    for (i, b) in input.iter_mut().enumerate() {
        *b = (i % 251) as u8;
    }
}

// Writes a call, its name and its numbers, each behind a space: a command line.
fn put_call(page: &mut Page<'_>, name: &[u8], numbers: &[u32])
    ensures { Wrote page.old page.new (name.now ++ bytes_text numbers.now) }
{
    page.text(name);
    for n in numbers {
        page.tagged(b" ", *n);
    }
}

// Writes what stands behind a call: its answer, the tables, a blank line.
fn put_row(page: &mut Page<'_>, kind: Reply, a: Answer, pool: &[u8])
    ensures { Wrote page.old page.new (row_text kind a pool.now) }
{
    reply::put_answer(page, kind, a);
    page.text(b"\n");
    draw::put_pool(page, pool);
    page.text(b"\n");
}

// Writes a word for the place of a view, storage or the scratch, on a line of its own.
fn put_place(page: &mut Page<'_>, shown: Shown)
    ensures { Wrote page.old page.new (place_text (view_in shown)) }
{
    if shown.in_scratch == 0 {
        page.text(b"\n  storage ");
    } else {
        page.text(b"\n  scratch ");
    }
}

// Writes bytes in decimal, each behind a space: a dump.
fn put_bytes(page: &mut Page<'_>, bytes: &[u8])
    ensures { Wrote page.old page.new (bytes_text bytes.now) }
{
    for b in bytes {
        page.tagged(b" ", u32::from(*b));
    }
}

// Shows the first `n` bytes of a slip at its first serial and writes what stands behind the call: its answer, and the bytes seen.
fn put_shown<'a>(
    page: &mut Page<'_>,
    pool: &[u8],
    storage: &'a [u8],
    slip: SlipNumber,
    n: u32,
    scratch: &'a mut [u8],
)
    ensures { Wrote page.old page.new
        (shown_text (name slip.0 0) n scratch.old (lent pool.now storage.now)) }
{
    let shown = slp::slp_show(pool, storage, slip.0, 0, n, scratch);
    let a = Answer {
        code: shown.code,
        number: shown.number,
    };
    reply::put_answer(page, Reply::Number, a);
    put_place(page, shown);
    put_bytes(page, calls_look::part(storage, scratch, shown));
    page.text(b"\n\n");
}

impl Morning {
    // Prints the row of a call, its name and its numbers, and what it answered: one write.
    fn show(
        &self,
        rt: &impl Print,
        name: &[u8],
        numbers: &[u32],
        kind: Reply,
        a: Answer,
    ) -> io::Result<()> {
        let mut bytes = [0u8; 1024];
        let mut page = Page::new(&mut bytes);
        put_call(&mut page, name, numbers);
        put_row(&mut page, kind, a, &self.pool);
        rt.write_all(page.written())
    }

    // Prints the first `n` bytes of a slip, of storage or, where they are scattered, copied to a scratch: a show.
    fn show_bytes(&self, rt: &impl Print, slip: SlipNumber, n: u32) -> io::Result<()> {
        let mut scratch = [0u8; 512];
        let mut bytes = [0u8; 1024];
        let mut page = Page::new(&mut bytes);
        put_call(&mut page, b"show", &[u32::from(slip.0), n]);
        put_shown(&mut page, &self.pool, &self.storage, slip, n, &mut scratch);
        rt.write_all(page.written())
    }

    // A fresh pool of 4 buffers, 6 pieces and 4 slips: the initial image.
    fn open(&mut self, rt: &impl Print) -> io::Result<()> {
        let a = slp::slp_open(&mut self.pool, &self.storage, 4, 6, 4);
        self.show(rt, b"open", &[4, 6, 4], Reply::Done, a)
    }

    // Row 1, 600 bytes into two buffers: a put.
    fn put(&mut self, rt: &impl Print) -> io::Result<()> {
        let mut input = [0u8; 600];
        fill_data(&mut input);
        let a = slp::slp_put(&mut self.pool, &mut self.storage, &input);
        self.show(rt, b"put", &[600], Reply::Slip, a)
    }

    // Rows 2 and 3, a cut and a dup that share buffers and pieces: no byte is copied.
    fn share(&mut self, rt: &impl Print) -> io::Result<()> {
        let cut = slp::slp_cut(&mut self.pool, &self.storage, 0, 0, 500, 50);
        self.show(rt, b"cut", &[0, 500, 50], Reply::Slip, cut)?;
        let dup = slp::slp_dup(&mut self.pool, &self.storage, 0, 0);
        self.show(rt, b"dup", &[0], Reply::Slip, dup)
    }

    // Rows 4 and 10, a slip gives up its chain: a release.
    fn free(&mut self, rt: &impl Print, slip: SlipNumber) -> io::Result<()> {
        let a = slp::slp_free(&mut self.pool, &mut self.storage, slip.0, 0);
        self.show(rt, b"free", &[u32::from(slip.0)], Reply::Done, a)
    }

    // Row 5, a chain shortened at its front: no byte is copied.
    fn trim_front(&mut self, rt: &impl Print) -> io::Result<()> {
        let drop = slp::slp_drop(&mut self.pool, &mut self.storage, 2, 0, 520);
        self.show(rt, b"drop", &[2, 520], Reply::Done, drop)
    }

    // Rows 6 and 7, a chain joined to another, and shortened at its end: no byte is copied.
    fn join_and_trim(&mut self, rt: &impl Print) -> io::Result<()> {
        let append = slp::slp_append(&mut self.pool, &mut self.storage, 1, 0, 2, 0);
        self.show(rt, b"append", &[1, 2], Reply::Done, append)?;
        let keep = slp::slp_keep(&mut self.pool, &mut self.storage, 1, 0, 40);
        self.show(rt, b"keep", &[1, 40], Reply::Done, keep)
    }

    // Rows 8 and 9, a chain's bytes brought together in a fresh buffer: a gather.
    fn gather(&mut self, rt: &impl Print) -> io::Result<()> {
        let pullup = slp::slp_pullup(&mut self.pool, &mut self.storage, 1, 0, 20);
        self.show(rt, b"pullup", &[1, 20], Reply::Done, pullup)?;
        self.show_bytes(rt, SlipNumber(1), 20)?;
        let pack = slp::slp_pack(&mut self.pool, &mut self.storage, 1, 0);
        self.show(rt, b"pack", &[1], Reply::Done, pack)
    }
}

// The morning, on a pool and storage of its own.
fn main(rt: HostRuntime) -> io::Result<()> {
    let mut morning = Morning {
        pool: [0; 95],
        storage: [0; 2048],
    };
    morning.open(&rt)?;
    morning.put(&rt)?;
    morning.share(&rt)?;
    morning.free(&rt, SlipNumber(0))?;
    morning.trim_front(&rt)?;
    morning.join_and_trim(&rt)?;
    morning.show_bytes(&rt, SlipNumber(1), 20)?;
    morning.gather(&rt)?;
    morning.free(&rt, SlipNumber(1))
}
