// The statements of the design, from the rows of the text's: targets in place of tokens.
ghost use Rattle.std.specs.Prelude.{◌≡◌, min, ◌<◌};
ghost use Rattle.base_codes.specs.Limit.{STATEMENTS};
ghost use Rattle.front_layout.specs.Rows.{set_row, store_rows};
ghost use Rattle.front_elaborator.specs.Positions.{target_at, row_at, rows_at};

use base_codes::{limit, statement};

// A target's index among the outputs or the variables.
fn target_at(owners: &[u8; limit::TEXT], slots: &[u8; limit::NAMES], kind: u16, i: u16) -> u16
    ensures { result ≡ target_at owners.now slots.now kind i }
{
    match kind {
        statement::OUTPUT | statement::VARIABLE => {
            let owner = owners.get(usize::from(i)).copied().unwrap_or(0);
            u16::from(slots.get(usize::from(owner)).copied().unwrap_or(0))
        }
        _ => 0,
    }
}

// Row j.
fn put(
    owners: &[u8; limit::TEXT],
    slots: &[u8; limit::NAMES],
    rows: &[u16; statement::ROWS],
    j: usize,
    out: &mut [u16; statement::ROWS],
)
    requires { j < STATEMENTS }
    ensures { out.new ≡ set_row j (row_at owners.now slots.now rows.now j) out.old }
{
    let at = statement::ROW * j;
    let target = target_at(owners, slots, rows[at], rows[at + statement::TOKEN]);
    out[at..at + statement::ROW].copy_from_slice(&rows[at..at + statement::ROW]);
    out[at + statement::TARGET] = target;
}

// All rows, in their order.
pub fn statements(
    owners: &[u8; limit::TEXT],
    slots: &[u8; limit::NAMES],
    rows: &[u16; statement::ROWS],
    s: usize,
    out: &mut [u16; statement::ROWS],
)
    ensures { out.new ≡ store_rows 0 (rows_at owners.now slots.now rows.now 0 (min s STATEMENTS)) out.old }
{
    for j in 0..s.min(limit::STATEMENTS) {
        put(owners, slots, rows, j, out);
    }
}
