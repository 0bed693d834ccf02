// The words that a call script lends, and the items that change them: `new`, `words` and `poke`.
#![tactic(auto)]

ghost use Rattle.std.specs.Prelude.{◌≡◌, ◌≤◌, ◌<◌, ◌↔◌, cond, false, leb, eqb, length, replicate, set, IsSome};
ghost use Rattle.lent.specs.Fronts.{Relent};

// Lends n words of any slice, each v: an array of fixed size, as in `Lent`, would leave some slices out. Of the slice the first `len` words were lent.
// The answer is the new length; the old one if the words are more than can be lent.
pub fn renew(words: &mut [u32], len: usize, n: u32, v: u32) -> usize
    requires { len ≤ length words.old }
    ensures upper_bound { result ≤ length words.new }
    ensures relent { Relent (leb n (length words.old)) (replicate n v) len words.old words.new result }
{
    let next = n as usize;
    if next > words.len() {
        return len;
    }
    words[..next].fill(v);
    next
}

// The same for given words: one at least.
pub fn given(words: &mut [u32], len: usize, numbers: &[u32]) -> usize
    requires { len ≤ length words.old }
    ensures upper_bound { result ≤ length words.new }
    ensures relent { Relent
        (cond (eqb (length numbers.now) 0) false (leb (length numbers.now) (length words.old)))
        numbers.now len words.old words.new result }
{
    let next = numbers.len();
    if next == 0 || next > words.len() {
        return len;
    }
    words[..next].copy_from_slice(numbers);
    next
}

// Of N words the first `len` are lent.
#[derive(Drop)]
pub struct Lent<const N: usize> {
    pub words: [u32; N],
    pub len: usize,
    pub ghost in_bounds: { len ≤ N },
}

impl<const N: usize> Lent<N> {
    // Lends n words, each v. More than N are refused, and nothing changes.
    pub fn renew(&mut self, n: u32, v: u32) -> Option<()>
        ensures told { IsSome result ↔ n ≤ N }
        ensures relent { Relent (leb n (length self.old.words)) (replicate n v) self.old.len self.old.words self.new.words self.new.len }
    {
        self.len = renew(&mut self.words, self.len, n, v);
        (n as usize <= N).then_some(())
    }

    // The same for given words: one at least.
    pub fn given(&mut self, numbers: &[u32]) -> Option<()>
        ensures told { IsSome result ↔ (0 < length numbers.now) × (length numbers.now ≤ N) }
        ensures relent { Relent
            (cond (eqb (length numbers.now) 0) false (leb (length numbers.now) (length self.old.words)))
            numbers.now self.old.len self.old.words self.new.words self.new.len }
    {
        self.len = given(&mut self.words, self.len, numbers);
        (1..=N).contains(&numbers.len()).then_some(())
    }
}

// Word i becomes v. Outside the slice nothing changes.
pub fn poke(w: &mut [u32], i: u32, v: u32) -> Option<()>
    ensures told { IsSome result ↔ i < length w.old }
    ensures stored { w.new ≡ set w.old i v }
{
    let at = i as usize;
    if at >= w.len() {
        return None;
    }
    w[at] = v;
    Some(())
}
