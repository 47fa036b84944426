#![tactic(auto)]
// Next, other and reach of every statement of a design that stands in arrays.
ghost use Rattle.image_flow.specs.Reaches.{Found};

use base_codes::{limit, statement};

mod followers;
mod reaches;

pub use followers::Links;

// Next, other and reach of each of n statements; of more than 512, which no body has, none.
pub fn find(
    rows: &[u16; statement::ROWS],
    n: usize,
    links: &mut Links,
    reach: &mut [u16; limit::STATEMENTS],
)
    ensures { Found rows.now n links.old links.new reach.old reach.new }
{
    if limit::STATEMENTS < n {
        return;
    }
    links.follow(rows, n);
    reaches::reaches(rows, n, links, reach);
}
