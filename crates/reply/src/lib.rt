// A call's answer as text, behind the call: a slip, done, a number, or a code with its name.
#![tactic(auto, using(page::proofs::Ink::inks))]

ghost use Rattle.std.specs.Prelude.{◌≡◌};
ghost use Rattle.page.specs.Page.{Wrote};
ghost use Rattle.reply.specs.Text.{name_text, done_text, answer_text};

use kinds::{Answer, Serial};
use page::Page;

// What a done call answers: a slip, nothing, or a number (the kind of a return value).
#[derive(Clone, Copy)]
pub enum Reply {
    Slip,
    Done,
    Number,
}

// The name of a code, empty where it has none: an error's name.
fn name(code: u16) -> &'static [u8]
    ensures { result.now ≡ name_text code }
{
    match code {
        1 => b" COUNTS",
        2 => b" TORN",
        3 => b" SLIP",
        4 => b" SAME",
        5 => b" LONG",
        6 => b" RANGE",
        7 => b" NARROW",
        8 => b" SLIPS",
        9 => b" PIECES",
        10 => b" BUFFERS",
        11 => b" LIST",
        _ => b"",
    }
}

// Writes the slip that the number `n` answers, with its serial where that is not 0: a new handle.
fn put_slip(page: &mut Page<'_>, n: u32)
    ensures { Wrote page.old page.new (done_text Reply.Slip n) }
{
    page.tagged(b" -> slip ", n % 65536);
    page.serial(Serial((n / 65536) as u16));
}

// Writes what a done call answers, a slip, nothing or the number `n`: a return value.
fn put_done(page: &mut Page<'_>, kind: Reply, n: u32)
    ensures { Wrote page.old page.new (done_text kind n) }
{
    match kind {
        Reply::Slip => put_slip(page, n),
        Reply::Done => page.text(b" -> done"),
        Reply::Number => page.tagged(b" -> ", n),
    }
}

// Writes an answer behind its call: a status code and a return value.
pub fn put_answer(page: &mut Page<'_>, kind: Reply, a: Answer)
    ensures { Wrote page.old page.new (answer_text kind a) }
{
    if a.code == 0 {
        return put_done(page, kind, a.number);
    }
    page.tagged(b" -> ", u32::from(a.code));
    page.text(name(a.code));
}
