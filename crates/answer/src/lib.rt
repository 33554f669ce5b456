// What an operation answers once it is done.
#![tactic(auto)]

ghost use Rattle.std.specs.Prelude.{◌≡◌, ◌<◌};
ghost use Rattle.kinds.specs.SlipState.{state_of};
ghost use Rattle.rules.specs.Tables.{slip};
ghost use Rattle.rules.specs.Bytes.{decode};
ghost use Rattle.tables.specs.Shape.{Shaped};

use kinds::{SlipNumber, Step};
use layout::Shape;

// The answer of a step on slip `s` that is done: the slip's state, and a number.
pub fn done(pool: &[u8], shape: Shape, s: SlipNumber, number: u32) -> Step
    requires { Shaped pool.now shape × (s.0 < shape.slips) }
    ensures { result ≡ record { state = state_of (slip (decode pool.now) s.0); number = number } }
{
    Step {
        state: tables::slip_state(pool, shape, s),
        number,
    }
}
