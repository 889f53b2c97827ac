// `simplify` where a list of lists has 64 different members or more: which of 7 and 8 is met, and what comes before both. It
// prints a line a call, each type in each room. What it must print was made by the Rust
// (compare/reference/src/bin/members_limit.rs).
#![tactic(auto)]

use answer_writing::answer::{Answer, Both, Good, stored};
use arena::intern;
use deep_types::head;
use simplify::{Simplified, simplify};
use std::io;
use types::arc_ty::Head;
use types::{Counters, Refusal};

// The nodes that a root has as members, by number; the root is the next.
const BOUND: u32 = 65;

const NEW: u32 = 68;

const FIRST: u32 = 69;

const TO_64: u32 = 70;

const TO_65: u32 = 71;

const ROOT: u32 = 72;

// The nodes of a type, in memory that has room for more.
#[derive(Clone, Copy)]
struct Nodes {
    words: [u32; 512],
    starts: [u32; 128],
    counters: Counters,
}

// The bound that decides a list of a kind.
fn bound(kind: u32) -> u32 {
    if kind == Head::UNION {
        Head::TOP
    } else {
        Head::BOTTOM
    }
}

// A list with the members from one on, as many as fill N words with the head.
fn list<const N: usize>(kind: u32, from: u32) -> [u32; N] {
    let mut node = [head(kind, N.saturating_sub(1)); N];
    for (member, n) in node.iter_mut().skip(1).zip(from..4096) {
        *member = n;
    }
    node
}

impl Nodes {
    // One more node.
    fn put(&mut self, node: &[u32]) {
        let stored = intern(&[], &mut self.words, &mut self.starts, self.counters, node);
        if let Ok((_, after)) = stored {
            self.counters = after;
        }
    }

    // int, the list of int, the list of that, and so on: nodes 0 to 64.
    fn put_members(&mut self) {
        self.put(&[head(Head::PRIMITIVE, 1), 2]);
        for n in 0..64 {
            self.put(&[head(Head::LIST, 1), n]);
        }
    }

    // The members, the bound and a variable; a node that becomes `Neg` of int, which isn't there; and lists of members: the first
    // has 40, with the second there are 64 different ones, with the third 65.
    fn new(kind: u32) -> Self {
        let mut nodes = Nodes {
            words: [0; 512],
            starts: [0; 128],
            counters: Counters { nodes: 0, words: 0 },
        };
        nodes.put_members();
        nodes.put(&[head(bound(kind), 0)]);
        nodes.put(&[head(Head::TY_VAR, 1), 0]);
        nodes.put(&[head(kind, 2), 66, 0]);
        nodes.put(&[head(Head::NEG, 1), 67]);
        nodes.put(&list::<41>(kind, 0));
        nodes.put(&list::<35>(kind, 30));
        nodes.put(&list::<36>(kind, 30));
        nodes
    }

    // The call, with so many words and starts besides what the type fills.
    fn simplify(self, more_words: usize, more_starts: usize) -> Result<Simplified, Refusal> {
        let c = self.counters;
        let mut words = self.words;
        let mut starts = self.starts;
        let m = c.words.saturating_add(more_words).min(words.len());
        let n = c.nodes.saturating_add(more_starts).min(starts.len());
        simplify(&[], &mut words[..m], &mut starts[..n], c, ROOT)
    }
}

// The root after, the passes made and the counters.
fn told(after: Simplified) -> Good<Both<u32, Both<u32, Both<usize, usize>>>> {
    Good(Both(after.root, stored((after.passes, after.counters))))
}

// The calls on a type: with room for all, for no word, for no start, and for one node of two words.
fn in_each_room(rt: &impl Print, kind: u32, members: &str, root: &[u32]) -> io::Result<()> {
    let list = if kind == Head::UNION {
        "union"
    } else {
        "intersection"
    };
    let rooms = [
        ("", 80, 8),
        (", no word left", 0, 8),
        (", no start left", 80, 0),
        (", one node left", 2, 1),
    ];
    for (room, words, starts) in rooms {
        print!(rt; "{list} of {members}{room}: ")?;
        let mut nodes = Nodes::new(kind);
        nodes.put(root);
        println!(rt; "{}", Answer(nodes.simplify(words, starts).map(told)))?;
    }
    Ok(())
}

fn limits(rt: &impl Print, kind: u32) -> io::Result<()> {
    let two = head(kind, 2);
    let three = head(kind, 3);
    let four = head(kind, 4);
    in_each_room(rt, kind, "64", &[two, FIRST, TO_64])?;
    in_each_room(rt, kind, "64 and repeats", &[three, FIRST, TO_64, FIRST])?;
    in_each_room(rt, kind, "65", &[two, FIRST, TO_65])?;
    in_each_room(rt, kind, "65 and the bound", &[three, FIRST, TO_65, BOUND])?;
    in_each_room(rt, kind, "a new one and 65", &[three, NEW, FIRST, TO_65])?;
    in_each_room(rt, kind, "65 and a new one", &[three, FIRST, TO_65, NEW])?;
    let all = [four, NEW, BOUND, FIRST, TO_65];
    in_each_room(rt, kind, "a new one, the bound and 65", &all)
}

fn main(rt: HostRuntime) -> io::Result<()> {
    limits(&rt, Head::UNION)?;
    limits(&rt, Head::INTERSECTION)
}
