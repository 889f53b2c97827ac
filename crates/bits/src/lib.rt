// Sets of numbers, one bit a number: rows of words of any length, and for node numbers 64 words of 64 bits.
#![tactic(auto)]

ghost use Rattle.std.specs.Prelude.{◌/◌, ◌<◌, ◌≡◌, length};
ghost use Rattle.bits.specs.Bits.{has, Put, count_below};
ghost use Rattle.bits.specs.Inner.{Row, EachWord, Union, SymmetricDifference};

// Whether n is in the set of a row.
pub fn test_row(row: &[u64], n: u32) -> bool
    requires { n / 64 < length row.now }
    ensures { result ≡ has row.now n }
{
    let w = (n / 64) as usize;
    let b = n % 64;
    let x = row[w] >> b;
    x % 2 == 1
}

// Whether n is in the set.
pub fn test(seen: &[u64; 64], n: u32) -> bool
    requires { n < 4096 }
    ensures { result ≡ has seen.now n }
{
    test_row(seen, n)
}

// Puts n into the set of a row.
pub fn put_row(row: &mut [u64], n: u32)
    requires { n / 64 < length row.old }
    ensures { Put row.old n row.new }
{
    let w = (n / 64) as usize;
    let b = n % 64;
    row[w] |= 1 << b;
}

// Puts n into the set.
pub fn put(seen: &mut [u64; 64], n: u32)
    requires { Row seen.old n }
    ensures { Put seen.old n seen.new }
{
    put_row(seen, n);
}

// How many numbers the set has.
pub fn count(seen: &[u64; 64]) -> u32
    ensures { result ≡ count_below (has seen.now) 4096 }
{
    let mut sum = 0;
    for word in seen {
        sum += word.count_ones();
    }
    sum
}

// The words of two sets combined, each by the same operation on bits.
fn combine<F: Fn(u64, u64) -> u64>(s: &[u64; 64], t: &[u64; 64], f: F) -> [u64; 64]
    requires { F.IsAlwaysCallable f }
    ensures { EachWord (F.post f) s.now t.now result }
{
    let mut r = [0; 64];
    for i in 0..64 {
        r[i] = f(s[i], t[i]);
    }
    r
}

// The numbers of either set.
pub fn union(s: &[u64; 64], t: &[u64; 64]) -> [u64; 64]
    ensures { Union s.now t.now result }
{
    combine(s, t, |x, y| x | y)
}

// The numbers of one set only.
pub fn symmetric_difference(s: &[u64; 64], t: &[u64; 64]) -> [u64; 64]
    ensures { SymmetricDifference s.now t.now result }
{
    combine(s, t, |x, y| x ^ y)
}
