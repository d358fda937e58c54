// One block: the four steps of section 6.1.2 in the standard's order and names. `compress` takes them in turn.
ghost use Rattle.std.specs.Prelude.{◌≡◌, ◌≤◌, length};
ghost use Rattle.sha1_blocks.specs.Fips180 as Fips;
ghost use Rattle.sha1_blocks.specs.InPlace.{extended};

use crate::constants::k;
use crate::functions::{f, rotl};
use crate::{Hash, Variables};

// Step 1: prepare the message schedule. W_0 to W_15 are the block's words, m; W_16 to W_79 are formed from those before.
fn schedule(m: &[u32; 16]) -> [u32; 80]
    requires { length m.now ≡ 16 }
    ensures { result ≡ Fips.schedule m.now 64 }
{
    let mut w = [0u32; 80];
    // Word by word: `copy_from_slice` was tried, and a digest then took 1,455 instructions in place of 1,324.
    for t in 0..16 {
        w[t] = m[t];
    }
    extend(&mut w, 16);
    extend(&mut w, 32);
    extend(&mut w, 48);
    extend(&mut w, 64);
    w
}

// Step 1, the words W_first to W_(first + 15). A loop of so many is unrolled when it is compiled, and then no word waits
// for another to be stored.
fn extend(w: &mut [u32; 80], first: usize)
    requires { (length w.old ≡ 80) × (16 ≤ first) × (first ≤ 64) }
    ensures words { w.new ≡ extended w.old first 16 }
    ensures eighty { length w.new ≡ 80 }
{
    for t in first..first + 16 {
        w[t] = rotl(1, w[t - 3] ^ w[t - 8] ^ w[t - 14] ^ w[t - 16]);
    }
}

// Step 2: initialise the five working variables with the hash value before.
fn working(h: Hash) -> Variables
    ensures { result ≡ Fips.working h }
{
    Variables {
        a: h.h0,
        b: h.h1,
        c: h.h2,
        d: h.h3,
        e: h.h4,
    }
}

// Step 3: the rounds t = 0 to 79.
fn rounds(w: &[u32; 80], start: Variables) -> Variables
    ensures { result ≡ Fips.rounds w.now start 0 80 }
{
    let v20 = twenty(w, start, 0);
    let v40 = twenty(w, v20, 20);
    let v60 = twenty(w, v40, 40);
    twenty(w, v60, 60)
}

// Step 3, the rounds t = first to first + 19. They have one function and one constant, which are chosen when the loop is
// compiled, if `first` is a constant.
fn twenty(w: &[u32; 80], start: Variables, first: usize) -> Variables
    requires { first ≤ 60 }
    ensures { result ≡ Fips.rounds w.now start first 20 }
{
    let mut v = start;
    for t in first..first + 20 {
        v = round(v, t, w[t]);
    }
    v
}

// Step 3, round t with the word W_t. `sum` is the standard's T, one term a line.
fn round(mut v: Variables, t: usize, word: u32) -> Variables
    ensures { result ≡ Fips.round t word v }
{
    let sum = rotl(5, v.a)
        .wrapping_add(f(t, v.b, v.c, v.d))
        .wrapping_add(v.e)
        .wrapping_add(k(t))
        .wrapping_add(word);
    v.e = v.d;
    v.d = v.c;
    v.c = rotl(30, v.b);
    v.b = v.a;
    v.a = sum;
    v
}

// Step 4: compute the intermediate hash value, that after this block.
fn intermediate(v: Variables, h: Hash) -> Hash
    ensures { result ≡ Fips.intermediate v h }
{
    Hash {
        h0: v.a.wrapping_add(h.h0),
        h1: v.b.wrapping_add(h.h1),
        h2: v.c.wrapping_add(h.h2),
        h3: v.d.wrapping_add(h.h3),
        h4: v.e.wrapping_add(h.h4),
    }
}

// The hash value after one block more: h is the one before, m the block's sixteen words.
pub fn compress(h: Hash, m: &[u32; 16]) -> Hash
    requires { length m.now ≡ 16 }
    ensures { result ≡ Fips.compress h m.now }
{
    let w = schedule(m); // step 1
    let start = working(h); // step 2
    let v = rounds(&w, start); // step 3
    intermediate(v, h) // step 4
}
