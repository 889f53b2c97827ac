// Which names of two tables have the same text. Both tables rise, so one walk through both finds it.
#![tactic(auto)]

ghost use Rattle.name_matching.specs.Inner.{Blank, Maps, Next, Steps};

use names::{compare, end_of};
use types::Ordering;

// How far the two tables are read: where the next name of each begins, and its number.
#[derive(Clone, Copy)]
struct Reading {
    left_at: usize,
    left: usize,
    right_at: usize,
    right: u32,
}

// Compares the next two names, and passes the lesser, or both.
fn step(left: &[u8], right: &[u8], names: &mut [u32; 4096], r: Reading) -> Reading
    requires { Next left.now right.now names.old r }
    ensures { Steps left.now right.now r names.new result }
{
    let i = r.left;
    let j = r.right;
    let left_at = r.left_at;
    let right_at = r.right_at;
    let left_start = left_at + 1;
    let right_start = right_at + 1;
    let left_end = end_of(left, left_at);
    let right_end = end_of(right, right_at);
    let order = compare(&left[left_start..left_end], &right[right_start..right_end]);
    match order {
        Ordering::Less => Reading {
            left_at: left_end,
            left: i + 1,
            ..r
        },
        Ordering::Equal => {
            names[i] = j + 1;
            Reading {
                left_at: left_end,
                left: i + 1,
                right_at: right_end,
                right: j + 1,
            }
        }
        Ordering::Greater => Reading {
            right_at: right_end,
            right: j + 1,
            ..r
        },
    }
}

// Maps the number of each name of the left table to the number, and one, of the name of the right with the same text.
pub fn match_names(left: &[u8], right: &[u8], names: &mut [u32; 4096])
    requires { Blank left.now right.now names.old }
    ensures { Maps left.now right.now names.new }
{
    let mut r = Reading {
        left_at: 0,
        left: 0,
        right_at: 0,
        right: 0,
    };
    // No `for`: each step moves on in one table or in both, by as many bytes as a name has.
    while r.left_at < left.len() && r.right_at < right.len() {
        r = step(left, right, names, r);
    }
}
