// Flips of one bit of the sample, and how many of them the check lets pass.
ghost use Rattle.std.specs.Prelude.{◌≤◌};

use super::arenas::{WIDTH, WORDS, sample};

// Whether the sample with bit b of one word flipped passes.
fn passes(at: usize, b: u32) -> bool {
    if at >= WORDS || b >= 32 {
        return false;
    }
    let mut w = sample();
    w[at] ^= 1 << b;
    arena_check::check(&w)
}

// The flips of one word that pass.
fn over_bits(at: usize) -> usize
    ensures { result ≤ 32 }
{
    (0..32).filter(|b| passes(at, *b)).count()
}

// Prints where a word stands and how many of its flips pass, if any do.
fn tell(rt: &impl Print, at: usize, n: usize) {
    if n == 0 {
        return;
    }
    let _ = print!(rt; "flips of word {at}");
    if arena::HEADER <= at {
        let of_records = at - arena::HEADER;
        let _ = print!(rt;
            ", word {} of slot {}",
            of_records % WIDTH,
            of_records / WIDTH
        );
    }
    let _ = println!(rt; ": {n} of 32 pass");
}

// Every word whose flips pass is a key of a list, and a flip passes where the keys stay in order.
pub fn all(rt: &impl Print) {
    let mut total = 0;
    for at in 0..WORDS {
        let n = over_bits(at);
        tell(rt, at, n);
        total += n;
    }
    let _ = println!(rt; "{total} of 3328 flips of one bit pass, all in keys, which stay in order");
}
