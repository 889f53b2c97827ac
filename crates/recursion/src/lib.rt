// What recursions over the nodes of an arena that grows have in common: a cache, the items in turn, and a refused run taken back.
#![tactic(auto)]

ghost use Rattle.std.specs.Prelude.{◌≡◌, ◌<◌, get_or};
ghost use Rattle.recursion.specs.Inner.Cache.{CacheRoom, Remembers};
ghost use Rattle.recursion.specs.Inner.Work.{TakesBack, TakesBackNodes};

use types::Counters;
use types::arc_ty::wide;

// What is known of node n: 0 for nothing yet, else what it becomes and one.
pub fn cached(cache: &[u32; 4096], n: u32) -> u32
    requires { n < 4096 }
    ensures { result ≡ get_or cache.now n 0 }
{
    cache[wide(n)]
}

// Node n becomes node m.
pub fn remember(cache: &mut [u32; 4096], n: u32, m: u32)
    requires { CacheRoom cache.old n m }
    ensures { Remembers n m cache.old cache.new }
{
    cache[wide(n)] = m + 1;
}

// Item i: an element behind a reference to an array says nothing of its range, an answer does.
pub fn item_at(items: &[u32; 65], i: usize) -> u32
    requires { i < 65 }
    ensures { result ≡ get_or items.now i 0 }
{
    items[i]
}

// Clears what stands from a place on.
pub fn take_back(words: &mut [u32], from: usize)
    ensures { TakesBack words.old from words.new }
{
    if from < words.len() {
        words[from..].fill(0);
    }
}

// Clears what stands past the counted nodes, in words and starts: what a refused run has added.
pub fn take_back_nodes(words: &mut [u32], starts: &mut [u32], c: Counters)
    ensures { TakesBackNodes words.old starts.old c words.new starts.new }
{
    take_back(words, c.words);
    take_back(starts, c.nodes);
}
