// The reach of every line, by sweeps from the last line to the first until nothing changes: at most as many as there are lines.
ghost use Rattle.std.specs.Prelude.{◌≡◌, ◌<◌, ◌≤◌};
ghost use Rattle.image_flow.specs.Reaches.{reach_by, reach_at, Swept, Reached};

use crate::followers::{Links, kind};
use base_codes::{limit, statement};

// The reach of a statement from those of its followers.
#[tactic(auto, unfolding(crate::specs::Reaches::reach_by))]
fn reach_by(kind: u16, a: u16, b: u16) -> u16
    ensures { result ≡ reach_by kind a b }
{
    match kind {
        statement::WAIT => 0,
        statement::IF | statement::WHILE => a.max(b).saturating_add(1),
        _ => a.saturating_add(1),
    }
}

// The reach of the line j from the reaches so far.
fn reach_at(
    rows: &[u16; statement::ROWS],
    j: usize,
    links: &Links,
    reaches: &[u16; limit::STATEMENTS],
) -> u16
    requires { j < 512 }
    ensures { result ≡ reach_at rows.now links.now j reaches.now }
{
    let next = usize::from(links.next[j]);
    let other = usize::from(links.other[j]);
    let a = reaches.get(next).copied().unwrap_or(0);
    let b = reaches.get(other).copied().unwrap_or(0);
    reach_by(kind(rows, j), a, b)
}

// One sweep over n lines; whether it changed a reach.
fn sweep(
    rows: &[u16; statement::ROWS],
    n: usize,
    links: &Links,
    reaches: &mut [u16; limit::STATEMENTS],
) -> bool
    requires { n ≤ 512 }
    ensures { Swept rows.now links.now n reaches.old reaches.new result }
{
    let mut changed = false;
    for j in (0..n).rev() {
        let v = reach_at(rows, j, links, reaches);
        changed |= reaches[j] != v;
        reaches[j] = v;
    }
    changed
}

// The reaches of n lines with these followers.
pub(crate) fn reaches(
    rows: &[u16; statement::ROWS],
    n: usize,
    links: &Links,
    reaches: &mut [u16; limit::STATEMENTS],
)
    requires { n ≤ 512 }
    ensures { Reached rows.now n links.now reaches.old reaches.new }
{
    for _k in 0..n {
        if !sweep(rows, n, links, reaches) {
            return;
        }
    }
}
