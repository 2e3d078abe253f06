// The rounds of a block, with the words of the message schedule computed along with them (FIPS 180-4 §6.2.2, §6.4.2).
ghost use Rattle.std.specs.Prelude.{◌≡◌, ◌+◌, ◌<◌, ◌≤◌, length, take, map};
ghost use Rattle.sha_2.specs.Sha2 as sha2;
ghost use Rattle.sha_2.specs.Running.{Goes};
ghost use Rattle.sha_2_compression.specs.Code.{of};

use crate::word::{Algorithm, Word};

// The eight working variables.
#[derive(Clone, Copy)]
pub struct Working<W> {
    pub a: W,
    pub b: W,
    pub c: W,
    pub d: W,
    pub e: W,
    pub f: W,
    pub g: W,
    pub h: W,
}

fn schedule_word<W: Word>(w16: W, w15: W, w7: W, w2: W) -> W
    ensures { W.value result ≡ sha2.schedule_word W.family (W.value w16) (W.value w15) (W.value w7) (W.value w2) }
{
    w2.small_sigma1().add(w7).add(w15.small_sigma0()).add(w16)
}

fn t1<W: Word>(v: Working<W>, k: W, w: W) -> W
    ensures { W.value result ≡ sha2.t1 W.family (W.value k) (W.value w) (of W.value v) }
{
    v.h.add(v.e.big_sigma1())
        .add(v.e.ch(v.f, v.g))
        .add(k)
        .add(w)
}

fn t2<W: Word>(v: Working<W>) -> W
    ensures { W.value result ≡ sha2.t2 W.family (of W.value v) }
{
    v.a.big_sigma0().add(v.a.maj(v.b, v.c))
}

fn round<W: Word>(v: Working<W>, k: W, w: W) -> Working<W>
    ensures { of W.value result ≡ sha2.round W.family (W.value k) (W.value w) (of W.value v) }
{
    let t1 = t1(v, k, w);
    let t2 = t2(v);
    let a = t1.add(t2);
    let e = v.d.add(t1);
    Working {
        a,
        b: v.a,
        c: v.b,
        d: v.c,
        e,
        f: v.e,
        g: v.f,
        h: v.g,
    }
}

// Round j, and the word of the schedule sixteen places on.
fn scheduled_round<W: Algorithm<ROUNDS, BLOCK>, const ROUNDS: usize, const BLOCK: usize>(
    v: Working<W>,
    w: &mut [W; ROUNDS],
    j: usize,
) -> Working<W>
    requires { j < W.family.further }
    ensures { (length w.new ≡ ROUNDS) × Goes W.family 1 j (map W.value w.old) (of W.value v) (map W.value w.new) (of W.value result) }
{
    w[j + 16] = schedule_word(w[j], w[j + 1], w[j + 9], w[j + 14]);
    round(v, W::round_constant(j), w[j])
}

// Rounds j and j + 1.
fn two_rounds<W: Algorithm<ROUNDS, BLOCK>, const ROUNDS: usize, const BLOCK: usize>(
    v: Working<W>,
    w: &mut [W; ROUNDS],
    j: usize,
) -> Working<W>
    requires { j + 2 ≤ W.family.further }
    ensures { (length w.new ≡ ROUNDS) × Goes W.family 2 j (map W.value w.old) (of W.value v) (map W.value w.new) (of W.value result) }
{
    let half = scheduled_round(v, w, j);
    scheduled_round(half, w, j + 1)
}

// Four rounds from round j on.
fn four_rounds<W: Algorithm<ROUNDS, BLOCK>, const ROUNDS: usize, const BLOCK: usize>(
    v: Working<W>,
    w: &mut [W; ROUNDS],
    j: usize,
) -> Working<W>
    requires { j + 4 ≤ W.family.further }
    ensures { (length w.new ≡ ROUNDS) × Goes W.family 4 j (map W.value w.old) (of W.value v) (map W.value w.new) (of W.value result) }
{
    let half = two_rounds(v, w, j);
    two_rounds(half, w, j + 2)
}

// Eight rounds from round j on, after which each variable has been in all places: inlined, none is moved. They are made by halves, since eight
// calls side by side take 5 to 7 % more instructions for a whole hash: the loop around them is not unrolled then.
fn eight_rounds<W: Algorithm<ROUNDS, BLOCK>, const ROUNDS: usize, const BLOCK: usize>(
    v: Working<W>,
    w: &mut [W; ROUNDS],
    j: usize,
) -> Working<W>
    requires { j + 8 ≤ W.family.further }
    ensures { (length w.new ≡ ROUNDS) × Goes W.family 8 j (map W.value w.old) (of W.value v) (map W.value w.new) (of W.value result) }
{
    let half = four_rounds(v, w, j);
    four_rounds(half, w, j + 4)
}

// The rounds that the schedule is still to be extended in.
pub fn first_rounds<W: Algorithm<ROUNDS, BLOCK>, const ROUNDS: usize, const BLOCK: usize>(
    s: Working<W>,
    w: &mut [W; ROUNDS],
) -> Working<W>
    ensures { (map W.value w.new ≡ sha2.extended W.family W.family.further (take 16 (map W.value w.old)))
        × (of W.value result ≡ sha2.rounds W.family (map W.value w.new) W.family.further (of W.value s)) }
{
    let mut v = s;
    for i in 0..(ROUNDS - 16) / 8 {
        v = eight_rounds(v, w, 8 * i);
    }
    v
}

// Rounds j and j + 1, once the schedule is complete.
fn two_last_rounds<W: Algorithm<ROUNDS, BLOCK>, const ROUNDS: usize, const BLOCK: usize>(
    v: Working<W>,
    w: &[W; ROUNDS],
    j: usize,
) -> Working<W>
    requires { j + 2 ≤ ROUNDS }
    ensures { (x : sha2.Working) → of W.value v ≡ sha2.rounds W.family (map W.value w.now) j x
        → of W.value result ≡ sha2.rounds W.family (map W.value w.now) (j + 2) x }
{
    let half = round(v, W::round_constant(j), w[j]);
    round(half, W::round_constant(j + 1), w[j + 1])
}

// The last sixteen rounds, two a turn: one a turn takes 5 to 7 % more instructions for a whole hash.
pub fn last_rounds<W: Algorithm<ROUNDS, BLOCK>, const ROUNDS: usize, const BLOCK: usize>(
    s: Working<W>,
    w: &[W; ROUNDS],
) -> Working<W>
    ensures { (x : sha2.Working) → of W.value s ≡ sha2.rounds W.family (map W.value w.now) W.family.further x
        → of W.value result ≡ sha2.rounds W.family (map W.value w.now) (16 + W.family.further) x }
{
    let mut v = s;
    for i in 0..8 {
        v = two_last_rounds(v, w, ROUNDS - 16 + 2 * i);
    }
    v
}
