// A text sought in a name table: the number of the name that it is, or how many names come before it (02, A3). specs/Lookup.antt
// says where a text stands among names, and specs/Theorems.antt what that tells of each name.
#![tactic(auto)]

ghost use Rattle.std.specs.Prelude.{◌≡◌};
ghost use Rattle.names.specs.Table.{split};
ghost use Rattle.name_lookup.specs.Lookup.{position, find_reply};
ghost use Rattle.name_lookup.specs.Inner.{Sought};

use names::{check_names, compare, find_places, name_at};
use types::{Ordering, Refusal};

// Where a text stands among the names of a table: whether one of them is the text, and how many come before it. Where one is, that
// is its number. No `Option`, since the place is told in both cases.
#[derive(Clone, Copy, Debug, PartialEq, Eq)]
pub struct Position {
    pub found: bool,
    pub place: u32,
}

// Where the text stands among the names, by halves: those before `low` come before it, those from `low + size` on after it. A turn
// compares one name and leaves at most half, so that at most thirteen of 4,096 names are compared (specs/Turns.antt).
fn find_by_halves(table: &[u8], places: &[u32; 4096], count: usize, text: &[u8]) -> Position
    requires { Sought table.now places.now count }
    ensures { result ≡ position (split table.now) text.now }
{
    let mut low = 0;
    let mut size = count;
    // Not the library's `binary_search_by`: what is searched is the numbers of names, and the names lie in the table.
    while size > 0 {
        let half = size / 2;
        let middle = low + half;
        let order = compare(name_at(table, places, middle), text);
        match order {
            Ordering::Less => {
                low = middle + 1;
                size = size - half - 1;
            }
            Ordering::Equal => {
                return Position {
                    found: true,
                    place: middle as u32,
                };
            }
            Ordering::Greater => {
                size = half;
            }
        }
    }
    Position {
        found: false,
        place: low as u32,
    }
}

// Where the text stands in the table. Any text may be sought, also one that can be no name.
pub fn find_name(table: &[u8], text: &[u8]) -> Result<Position, Refusal>
    ensures { result ≡ find_reply table.now text.now }
{
    let count = check_names(table)?;
    let mut places = [0u32; 4096];
    find_places(table, &mut places);
    Ok(find_by_halves(table, &places, count, text))
}
