#![tactic(auto)]
// Refusal 7: "output or variable group without value", at the group's first name.
ghost use Rattle.std.specs.Prelude.{◌≡◌, ◌<◌};
ghost use Rattle.base_codes.specs.Limit.{NAMES};
ghost use Rattle.front_values.specs.Positions.{value_there, value_at};
ghost use Rattle.front_values.specs.Judges.{Judges};

use base_codes::{declaration, limit};
use front_offences::Shape;

// Whether a name of this mode has the value that it needs.
fn value_there(mode: u16, init: u16) -> bool
    ensures { result ≡ value_there mode init }
{
    mode == declaration::IN || init != declaration::NONE
}

// The offence of one declared name.
fn value_at(
    decls: &[u16; declaration::ROWS],
    starts: &[u16; limit::TEXT],
    n: usize,
    j: usize,
) -> Option<usize>
    requires { j < NAMES }
    ensures { result ≡ value_at decls.now starts.now n j }
{
    let row = declaration::ROW * j;
    let there = value_there(
        decls[row + declaration::MODE],
        decls[row + declaration::INIT],
    );
    let first = usize::from(decls[row + declaration::FIRST]);
    front_offences::offence(there, front_offences::place_at(starts, n, first))
}

// The lowest offence of refusal 7. It takes the two arrays that it reads and no whole tree, so that it asks for no others.
pub fn judge(
    starts: &[u16; limit::TEXT],
    shape: Shape,
    decls: &[u16; declaration::ROWS],
) -> Option<usize>
    ensures { Judges starts.now shape decls.now result }
{
    let end = shape.names.min(limit::NAMES);
    front_offences::lowest_below(end, |j| value_at(decls, starts, shape.tokens, j))
}
