// The lines section by position: the line where a cycle begins.
ghost use Rattle.std.specs.Prelude.{◌≡◌, true, List, ℕ, ◌<◌};
ghost use Rattle.spec_format.specs.Image.{Table};
ghost use Rattle.spec_format.specs.State.{place_allowed};
ghost use Rattle.spec_format.specs.Walk.{from};
ghost use Rattle.image_checks.specs.Places.{Opens};

use base_codes::{image, record};
use image_words::word2;

// The line where a cycle begins: the first from the beginning, else the one that follows the wait.
pub fn first_line(lines: &[u8], place: u16) -> usize
    ensures value { (t : Table) (signature code : List ℕ) → Opens signature lines.now code t → place_allowed t.lines place ≡ true
        → result ≡ from t.lines place }
    ensures upper_bound { result < 65536 }
{
    if place == record::BEGINNING {
        return 0;
    }
    word2(lines, usize::from(place) * image::LINE + image::LINE_NEXT) as usize
}
