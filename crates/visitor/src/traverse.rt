// A walk that takes its visitor and gives it back, and that lends it.
ghost use Rattle.std.specs.Prelude.{◌≡◌, ℕ, List};

pub trait Traverse: Copy {
    // Where the visitor stands in its list, in words of m levels; and what it holds after the walk on from there.
    ghost stands: { List ℕ → ℕ → Self → Type 0 };

    ghost visit: { List ℕ → Self → Self };

    // No law says that it stands in its list again, but this promise: a law's proof may name no file of proofs/, where what it rests on stands.
    fn traversed(self, w: &[u32], m: usize) -> Self
        requires { stands w.now m self }
        ensures visited { result ≡ visit w.now self }
        ensures stands_again { stands w.now m result };

    final fn traverse(&mut self, w: &[u32], m: usize)
        requires { stands w.now m self.old }
        ensures visited { self.new ≡ visit w.now self.old }
        ensures stands_again { stands w.now m self.new }
    {
        let before = *self;
        let after = before.traversed(w, m);
        *self = after;
    }

    // A caller of `traverse`, for callers that keep the visitor by value: it lends its own.
    final fn lent(self, w: &[u32], m: usize) -> Self
        requires { stands w.now m self }
        ensures visited { result ≡ visit w.now self }
        ensures stands_again { stands w.now m result }
    {
        let mut v = self;
        v.traverse(w, m);
        v
    }

    // A caller that lends its visitor twice: the second walk goes on from where the first ended.
    final fn again(self, w: &[u32], m: usize) -> Self
        requires { stands w.now m self }
        ensures visited { result ≡ visit w.now (visit w.now self) }
        ensures stands_again { stands w.now m result }
    {
        let mut v = self;
        v.traverse(w, m);
        v.traverse(w, m);
        v
    }
}
