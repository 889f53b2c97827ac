// The pieces of a node's text, read off the words of the node.
ghost use Rattle.std.specs.Prelude.{◌≡◌, ◌-◌, ◌≤◌, length, get_or};
ghost use Rattle.words.specs.Words.{bit, head_open, head_dynamic, field_optional, field_name};
ghost use Rattle.types.specs.Inner.{text as bytes_of};
ghost use Rattle.types.specs.Kind.{attr_set};
ghost use Rattle.types.specs.Node.{tag, tag_of, guess};
ghost use Rattle.types.specs.Fault.{children_in};
ghost use Rattle.names.specs.Table.{split, name_text};
ghost use Rattle.names.specs.Inner.{Places};
ghost use Rattle.spelling.specs.Spelling.{spelled};
ghost use Rattle.appending.specs.Parts.{between};
ghost use Rattle.appending.specs.Inner.{Writes};
ghost use Rattle.text_writing.specs.Text.{beginning, separator, field_text, label, parens, before, set_ending, ending};
ghost use Rattle.text_writing.specs.Text.{shown};
ghost use Rattle.text_writing.specs.Inner.Formed.{IsFormed};

use appending::spelled::write_spelled;
use appending::{append, append_after, append_if};
use names::name_at;
use node_reading::nodes::kind_in;
use node_store::children::child_words;
use primitive::PrimitiveTy;
use spelling::Spelling;
use types::arc_ty::{
    Head, needs_parens_in_intersection_member, needs_parens_in_lambda_param, needs_parens_in_neg,
    needs_parens_in_union_member, tyvar_name,
};
use types::attrset::{field_name, field_optional};
use types::short_text::ShortText;

// The first word of a body, 0 where it has none.
fn first_word(body: &[u32]) -> u32
    ensures { result ≡ get_or body.now 0 0 }
{
    body.first().copied().unwrap_or(0)
}

// A short text: a primitive type, a type variable, a number.
pub fn write_short(text: &mut [u8], count: usize, short: ShortText) -> usize
    requires { short.len ≤ length short.bytes }
    ensures { Writes text.old count (bytes_of short) text.new result }
{
    let bytes = short.bytes;
    let len = short.len;
    append(text, count, &bytes[..len])
}

// The name that a field word carries.
fn write_name(
    table: &[u8],
    places: &[u32; 4096],
    spelling: Spelling,
    word: u32,
    text: &mut [u8],
    count: usize,
) -> usize
    requires { Places table.now places.now }
    ensures { Writes text.old count (spelled spelling (name_text table.now (field_name word)))
        text.new result }
{
    write_spelled(
        spelling,
        name_at(table, places, field_name(word)),
        text,
        count,
    )
}

// What begins a node's text.
pub fn write_beginning(
    table: &[u8],
    places: &[u32; 4096],
    spelling: Spelling,
    node: &[u32],
    text: &mut [u8],
    count: usize,
) -> usize
    requires formed { IsFormed node.now }
    requires places { Places table.now places.now }
    ensures { Writes text.old count (beginning spelling (split table.now) (tag (guess node.now)))
        text.new result }
{
    let kind = kind_in(node);
    let body = &node[1..];
    match kind {
        Head::BOTTOM => append(text, count, b"never"),
        Head::TOP => append(text, count, b"any"),
        Head::PRIMITIVE => {
            let primitive = PrimitiveTy {
                code: first_word(body),
            };
            write_short(text, count, primitive.text())
        }
        Head::TY_VAR => write_short(text, count, tyvar_name(first_word(body))),
        Head::LIST => append(text, count, b"["),
        Head::ATTR_SET => append(text, count, b"{ "),
        Head::NAMED => write_name(table, places, spelling, first_word(body), text, count),
        Head::NEG => append(text, count, b"~"),
        _ => count,
    }
}

// What separates child i from the one before it.
fn write_separator(node: &[u32], i: usize, text: &mut [u8], count: usize) -> usize
    requires { IsFormed node.now }
    ensures { Writes text.old count (between (separator (tag (guess node.now))) i) text.new result }
{
    match kind_in(node) {
        Head::LAMBDA => append_after(text, count, i, b" -> "),
        Head::ATTR_SET => append_after(text, count, i, b", "),
        Head::UNION => append_after(text, count, i, b" | "),
        Head::INTERSECTION => append_after(text, count, i, b" & "),
        _ => count,
    }
}

// How many body words of a set are fields.
fn field_count(head: Head, body: &[u32]) -> usize
    ensures { result ≡ length body.now - bit (head_dynamic head.word) }
{
    body.len().saturating_sub(usize::from(head.dynamic()))
}

// The name in a field word, with what stands between it and the field's type.
fn write_field(
    table: &[u8],
    places: &[u32; 4096],
    spelling: Spelling,
    word: u32,
    text: &mut [u8],
    count: usize,
) -> usize
    requires { Places table.now places.now }
    ensures { Writes text.old count
        (field_text spelling (split table.now) (field_optional word) (field_name word)) text.new result }
{
    let named = write_name(table, places, spelling, word, text, count);
    let marked = append_if(text, named, field_optional(word), b"?");
    append(text, marked, b": ")
}

// What names child i of a set.
fn write_set_label(
    table: &[u8],
    places: &[u32; 4096],
    spelling: Spelling,
    head: Head,
    body: &[u32],
    i: usize,
    text: &mut [u8],
    count: usize,
) -> usize
    requires { Places table.now places.now }
    ensures { Writes text.old count (label spelling (split table.now)
        (tag_of attr_set (head_open head.word) (head_dynamic head.word) body.now) i) text.new result }
{
    if i < field_count(head, body) {
        return write_field(table, places, spelling, body[i], text, count);
    }
    append(text, count, b"_: ")
}

// What names child i.
fn write_label(
    table: &[u8],
    places: &[u32; 4096],
    spelling: Spelling,
    node: &[u32],
    i: usize,
    text: &mut [u8],
    count: usize,
) -> usize
    requires formed { IsFormed node.now }
    requires places { Places table.now places.now }
    ensures { Writes text.old count (label spelling (split table.now) (tag (guess node.now)) i)
        text.new result }
{
    if kind_in(node) == Head::ATTR_SET {
        let head = Head { word: node[0] };
        return write_set_label(table, places, spelling, head, &node[1..], i, text, count);
    }
    count
}

// Whether child i, which is of this kind, stands in parentheses.
pub fn in_parens(node: &[u32], i: usize, kind: u32) -> bool
    requires { IsFormed node.now }
    ensures { result ≡ parens (tag (guess node.now)) i kind }
{
    let parent = kind_in(node);
    if parent == Head::UNION {
        return needs_parens_in_union_member(kind);
    }
    if parent == Head::INTERSECTION {
        return needs_parens_in_intersection_member(kind);
    }
    if parent == Head::NEG {
        return needs_parens_in_neg(kind);
    }
    if parent == Head::LAMBDA {
        if i == 0 {
            return needs_parens_in_lambda_param(kind);
        }
    }
    false
}

// What stands before child i, which stands in parentheses or not.
pub fn write_before(
    table: &[u8],
    places: &[u32; 4096],
    spelling: Spelling,
    node: &[u32],
    i: usize,
    inside: bool,
    text: &mut [u8],
    count: usize,
) -> usize
    requires formed { IsFormed node.now }
    requires places { Places table.now places.now }
    ensures { Writes text.old count
        (before spelling (split table.now) (tag (guess node.now)) i inside) text.new result }
{
    let separated = write_separator(node, i, text, count);
    let labelled = write_label(table, places, spelling, node, i, text, separated);
    append_if(text, labelled, inside, b"(")
}

// What ends the text of a set.
fn write_set_ending(head: Head, body: &[u32], text: &mut [u8], count: usize) -> usize
    ensures { Writes text.old count (set_ending (head_open head.word) (length body.now))
        text.new result }
{
    if head.opened() {
        let separated = append_after(text, count, body.len(), b", ");
        return append(text, separated, b"... }");
    }
    append(text, count, b" }")
}

// What ends a node's text.
pub fn write_ending(node: &[u32], text: &mut [u8], count: usize) -> usize
    requires { IsFormed node.now }
    ensures { Writes text.old count (ending (tag (guess node.now)) (length (children_in node.now)))
        text.new result }
{
    let kind = kind_in(node);
    if kind == Head::LIST {
        return append(text, count, b"]");
    }
    if kind == Head::ATTR_SET {
        let head = Head { word: node[0] };
        return write_set_ending(head, child_words(node), text, count);
    }
    count
}

// How many children are printed.
pub fn shown_count(node: &[u32]) -> usize
    requires { IsFormed node.now }
    ensures { result ≡ length (shown (tag (guess node.now)) (children_in node.now)) }
{
    if kind_in(node) == Head::NAMED {
        return 0;
    }
    child_words(node).len()
}
