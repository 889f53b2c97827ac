// What was simplified before, one entry a node and removal setting: 0 for nothing yet, else the node's number and one.
ghost use Rattle.std.specs.Prelude.{◌≡◌, ◌<◌, get_or};
ghost use Rattle.pass.specs.Inner.Caches.{entries, CacheRoom, Remembers};

use types::arc_ty::wide;

// What is known of node n under the setting.
pub fn cached(dropped: &[u32; 4096], kept: &[u32; 4096], keep: bool, n: u32) -> u32
    requires { n < 4096 }
    ensures { result ≡ get_or (entries keep dropped.now kept.now) n 0 }
{
    let i = wide(n);
    if keep {
        return kept[i];
    }
    dropped[i]
}

// Node n becomes node m under the setting.
pub fn remember(dropped: &mut [u32; 4096], kept: &mut [u32; 4096], keep: bool, n: u32, m: u32)
    requires { CacheRoom dropped.old kept.old n m }
    ensures { Remembers keep n m dropped.old kept.old dropped.new kept.new }
{
    let i = wide(n);
    if keep {
        kept[i] = m + 1;
    } else {
        dropped[i] = m + 1;
    }
}
