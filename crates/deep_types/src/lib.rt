// Arenas put together node by node without the library, in memory that is lent, for the programs that ask it about them: types that
// are deep or have a node at very many places, and a pair of sets.
#![tactic(auto)]

use types::Counters;
use types::arc_ty::Head;
use types::attrset::field_word;

// The names p and q.
pub const TABLE: [u8; 4] = [1, b'p', 1, b'q'];

// As many nodes as an arena can have, and as many words.
pub const NODES: usize = 4096;

pub const WORDS: usize = 16384;

// The node after another in a chain.
#[derive(Clone, Copy)]
enum Step {
    // Its only child is the node before; two kinds in turn.
    Child(u32, u32),
    // The same, under the name q.
    Field(u32),
    // Both children are the node before.
    Both(u32),
    // A lambda whose param is the node before, and whose body is node 0.
    Param,
    // A lambda whose param is node 0, and whose body is the node before.
    Body,
}

// A type of 4,096 nodes: each is a child of the next, and the first is the variable a or, where that is node 0, int.
#[derive(Clone, Copy)]
pub struct Chain {
    pub name: &'static str,
    int: bool,
    step: Step,
}

fn of(name: &'static str, int: bool, step: Step) -> Chain {
    Chain { name, int, step }
}

// In the first two each node is both children of the next, so the variable has 2^4095 places. A lambda's other child is the
// variable, and int is below such a chain.
pub fn chains() -> [Chain; 11] {
    [
        of("shared lambdas", false, Step::Both(Head::LAMBDA)),
        of("shared unions", false, Step::Both(Head::UNION)),
        of("lists", false, Step::Child(Head::LIST, Head::LIST)),
        of("lambdas by param", true, Step::Param),
        of("lambdas by body", true, Step::Body),
        of("unions", false, Step::Child(Head::UNION, Head::UNION)),
        of(
            "intersections",
            false,
            Step::Child(Head::INTERSECTION, Head::INTERSECTION),
        ),
        of(
            "unions and intersections",
            false,
            Step::Child(Head::UNION, Head::INTERSECTION),
        ),
        of("negs", false, Step::Child(Head::NEG, Head::NEG)),
        of("names", false, Step::Field(Head::NAMED)),
        of("sets", false, Step::Field(Head::ATTR_SET)),
    ]
}

// The nodes that are put into lent memory, whose words and starts behind them are zero.
#[derive(Drop)]
pub struct Arena<'a> {
    pub words: &'a mut [u32],
    pub starts: &'a mut [u32],
    pub counters: Counters,
}

// A head without flags; 0, which is the head of an empty node, where it would not fit.
pub fn head(kind: u32, count: usize) -> u32 {
    if kind <= Head::NEG && count <= 66 {
        Head::new(kind, false, false, count).word
    } else {
        0
    }
}

// A field that isn't optional; 0 where the child can't be.
fn field(name: usize, child: u32) -> u32 {
    if name < 65536 && child < 4096 {
        field_word(false, name, child)
    } else {
        0
    }
}

impl<'a> Arena<'a> {
    // No node yet; the memory becomes zero.
    pub fn new(words: &'a mut [u32], starts: &'a mut [u32]) -> Self {
        words.fill(0);
        starts.fill(0);
        Arena {
            words,
            starts,
            counters: Counters { nodes: 0, words: 0 },
        }
    }

    // One more node, behind the others; none where it has no room.
    pub fn put(&mut self, kind: u32, body: &[u32]) {
        let Counters { nodes, words } = self.counters;
        let end = words.saturating_add(1).saturating_add(body.len());
        let Ok(at) = u32::try_from(words) else {
            return;
        };
        let Some(start) = self.starts.get_mut(nodes) else {
            return;
        };
        let Some(node) = self.words.get_mut(words..end) else {
            return;
        };
        *start = at;
        let head = [head(kind, body.len())];
        for (word, value) in node.iter_mut().zip(head.iter().chain(body)) {
            *word = *value;
        }
        self.counters = Counters {
            nodes: nodes + 1,
            words: end,
        };
    }

    fn put_step(&mut self, step: Step, newest: u32) {
        match step {
            Step::Child(even, odd) => {
                let kind = if newest % 2 == 0 { even } else { odd };
                self.put(kind, &[newest]);
            }
            Step::Field(kind) => self.put(kind, &[field(1, newest)]),
            Step::Both(kind) => self.put(kind, &[newest, newest]),
            Step::Param => self.put(Head::LAMBDA, &[newest, 0]),
            Step::Body => self.put(Head::LAMBDA, &[0, newest]),
        }
    }

    // The closed set with fields p and q, node 5: p is F[a, int], node 3, and q is node 3 or F[a, bool], node 4.
    pub fn pair(words: &'a mut [u32], starts: &'a mut [u32], q: u32) -> Self {
        let mut arena = Arena::new(words, starts);
        arena.put(Head::TY_VAR, &[0]);
        arena.put(Head::PRIMITIVE, &[2]);
        arena.put(Head::PRIMITIVE, &[1]);
        arena.put(Head::LAMBDA, &[0, 1]);
        arena.put(Head::LAMBDA, &[0, 2]);
        arena.put(Head::ATTR_SET, &[field(0, 3), field(1, q)]);
        arena
    }

    // What a question about the type of a root is answered, under the names p and q.
    pub fn ask<T, F: FnOnce(&[u8], &[u32], &[u32], Counters, u32) -> T>(
        &self,
        root: u32,
        question: F,
    ) -> T
        requires { F.IsAlwaysCallable question }
    {
        question(&TABLE, self.words, self.starts, self.counters, root)
    }
}

impl Chain {
    // The chain; its root is node 4095.
    pub fn arena<'a>(self, words: &'a mut [u32], starts: &'a mut [u32]) -> Arena<'a> {
        let mut arena = Arena::new(words, starts);
        arena.put(Head::TY_VAR, &[0]);
        if self.int {
            arena.put(Head::PRIMITIVE, &[2]);
        }
        for newest in u32::from(self.int)..4095 {
            arena.put_step(self.step, newest);
        }
        arena
    }
}
