// The calls of the C interface on nodes, names and texts, a part of the static library (host/archive): each hands its arguments to
// the call of that name and tells the answer as a number, 0 or that of a refusal. A result is written where it is lent; a refusal
// writes none, but 9 clears the bytes that are lent to `display` and `display_nix`.
#![tactic(auto)]

ghost use Rattle.std.specs.Prelude.{◌≡◌};
ghost use Rattle.types.specs.Short.{short_text};
ghost use Rattle.types.specs.Tyvar.{tyvar_name};
ghost use Rattle.names.specs.Table.{name_order};
ghost use Rattle.names.specs.Reply.{table_reply, name_reply};
ghost use Rattle.name_lookup.specs.Lookup.{find_reply};
ghost use Rattle.arena.specs.Intern.{intern_reply};
ghost use Rattle.arena.specs.Compare.{compare_reply};
ghost use Rattle.display.specs.Reply.{display_reply, display_nix_reply};
ghost use Rattle.sheet_writing.specs.Reply.{write_sheet_reply};
ghost use Rattle.sheet_converting.specs.Convert.{convert_reply};
ghost use Rattle.sheet_format.specs.Line.{WritesLine};
ghost use Rattle.lang_ty.specs.Told.{told, tell, told_as, as_number, order_number, in_numbers};
ghost use Rattle.lang_ty.specs.Told.{told_arena, tell_arena, told_text, tell_text, tell_converted};

use arena::compare;
use display::{display, display_nix};
use lang_ty::tell;
use lent_counters::intern_lent_pair;
use name_lookup::find_name;
use names::{check_names, name_stretch};
use sheet_converting::convert_sheet;
use sheet_format::sheet_line;
use sheet_writing::write_sheet;
use types::arc_ty::tyvar_name;
use types::{Counters, Ordering};

// The number of the node with these words, which is added where the arena has none.
#[unsafe(no_mangle)]
pub extern "C" fn lang_ty_intern(
    table: &[u8],
    words: &mut [u32],
    starts: &mut [u32],
    nodes: &mut usize,
    used: &mut usize,
    node: &[u32],
    number: &mut u32,
) -> u32
    ensures { told_arena result number.new record { nodes = nodes.exit.now; words = used.new } words.new
        starts.new
        ≡ tell_arena number.old (intern_reply table.now words.old starts.old
        record { nodes = nodes.entry.now; words = used.old } node.now) }
{
    let stored = intern_lent_pair(table, words, starts, nodes, used, node);
    let Ok(n) = stored else {
        return stored.unwrap_err().number();
    };
    *number = n;
    0
}

// How many names the table has.
#[unsafe(no_mangle)]
pub extern "C" fn lang_ty_check_names(table: &[u8], count: &mut usize) -> u32
    ensures { told result count.new ≡ tell count.old (table_reply table.now) }
{
    tell(check_names(table), count)
}

// Where the text of the name with this number lies in the table.
#[unsafe(no_mangle)]
pub extern "C" fn lang_ty_name_at(
    table: &[u8],
    number: u32,
    start: &mut usize,
    length: &mut usize,
) -> u32
    ensures { told result record { start = start.exit.now; length = length.new }
        ≡ tell record { start = start.entry.now; length = length.old } (name_reply table.now number) }
{
    match name_stretch(table, number) {
        Ok(text) => {
            *start = text.start;
            *length = text.length;
            0
        }
        Err(refusal) => refusal.number(),
    }
}

// Whether a name of the table is the text, and that name's number or how many names come before the text.
#[unsafe(no_mangle)]
pub extern "C" fn lang_ty_find_name(
    table: &[u8],
    text: &[u8],
    found: &mut u32,
    place: &mut u32,
) -> u32
    ensures { told result record { found = found.exit.now; place = place.new }
        ≡ tell record { found = found.entry.now; place = place.old }
        (told_as in_numbers (find_reply table.now text.now)) }
{
    match find_name(table, text) {
        Ok(position) => {
            *found = u32::from(position.found);
            *place = position.place;
            0
        }
        Err(refusal) => refusal.number(),
    }
}

// 0, 1 and 2: before, the same, after.
fn order_number(order: Ordering) -> u32
    ensures { result ≡ order_number order }
{
    match order {
        Ordering::Less => 0,
        Ordering::Equal => 1,
        Ordering::Greater => 2,
    }
}

// How two names stand in order.
#[unsafe(no_mangle)]
pub extern "C" fn lang_ty_compare_names(left: &[u8], right: &[u8], order: &mut u32) -> u32
    ensures { told result order.new ≡ told 0 (order_number (name_order left.now right.now)) }
{
    *order = order_number(names::compare(left, right));
    0
}

// How two nodes stand in order.
#[unsafe(no_mangle)]
pub extern "C" fn lang_ty_compare(
    table: &[u8],
    words: &[u32],
    starts: &[u32],
    nodes: usize,
    used: usize,
    left: u32,
    right: u32,
    order: &mut u32,
) -> u32
    ensures { told result order.new
        ≡ tell order.old (as_number order_number (compare_reply table.now words.now starts.now
        record { nodes = nodes; words = used } left right)) }
{
    let c = Counters { nodes, words: used };
    let answer = compare(table, words, starts, c, left, right);
    tell(answer.map(order_number), order)
}

// How a type variable is printed: the text, zeros after it, and its length.
#[unsafe(no_mangle)]
pub extern "C" fn lang_ty_tyvar_name(index: u32, text: &mut [u8; 11], len: &mut usize) -> u32
    ensures { told result record { bytes = text.new; len = len.new } ≡ told 0 (short_text (tyvar_name index)) }
{
    let name = tyvar_name(index);
    let bytes = name.bytes;
    *text = bytes;
    *len = name.len;
    0
}

// The text of the root's type, its names as they stand in the table.
#[unsafe(no_mangle)]
pub extern "C" fn lang_ty_display(
    table: &[u8],
    words: &[u32],
    starts: &[u32],
    nodes: usize,
    used: usize,
    root: u32,
    text: &mut [u8],
    len: &mut usize,
) -> u32
    ensures { told_text result len.new text.new
        ≡ tell_text len.old (display_reply table.now words.now starts.now
        record { nodes = nodes; words = used } root text.old) }
{
    let c = Counters { nodes, words: used };
    tell(display(table, words, starts, c, root, text), len)
}

// The same, its names as the Nix manual writes them.
#[unsafe(no_mangle)]
pub extern "C" fn lang_ty_display_nix(
    table: &[u8],
    words: &[u32],
    starts: &[u32],
    nodes: usize,
    used: usize,
    root: u32,
    text: &mut [u8],
    len: &mut usize,
) -> u32
    ensures { told_text result len.new text.new
        ≡ tell_text len.old (display_nix_reply table.now words.now starts.now
        record { nodes = nodes; words = used } root text.old) }
{
    let c = Counters { nodes, words: used };
    tell(display_nix(table, words, starts, c, root, text), len)
}

// The sheet of the table's names, the arena and the root.
#[unsafe(no_mangle)]
pub extern "C" fn lang_ty_write_sheet(
    table: &[u8],
    words: &[u32],
    starts: &[u32],
    nodes: usize,
    used: usize,
    root: u32,
    bytes: &mut [u8],
    len: &mut usize,
) -> u32
    ensures { told_text result len.new bytes.new
        ≡ tell_text len.old (write_sheet_reply table.now words.now starts.now
        record { nodes = nodes; words = used } root bytes.old) }
{
    let c = Counters { nodes, words: used };
    tell(write_sheet(table, words, starts, c, root, bytes), len)
}

// An old sheet made a new one, in place.
#[unsafe(no_mangle)]
pub extern "C" fn lang_ty_convert_sheet(sheet: &mut [u8]) -> u32
    ensures { told result sheet.new ≡ tell_converted (convert_reply sheet.old) }
{
    match convert_sheet(sheet) {
        Ok(()) => 0,
        Err(refusal) => refusal.number(),
    }
}

// The line of a sheet, and how many bytes it has.
#[unsafe(no_mangle)]
pub extern "C" fn lang_ty_sheet_line(sheet: &[u8], line: &mut [u8; 65544], len: &mut usize) -> u32
    ensures value { result ≡ 0 }
    ensures writes_line { WritesLine sheet.now line.old line.new len.new }
{
    *len = sheet_line(sheet, line);
    0
}
