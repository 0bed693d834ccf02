// Walks Q of document 01 by key and by rank: with the walks by value, and with the visitors given back, lent, and lent again. Each line ends in the
// numbers that the walk answers, so that the lines of one key, or of one rank, can be compared. A second walk of the same visitor compares once more
// where the key is missing and one follows, and never where it is found.
#![tactic(auto)]

mod arena_of_q;
mod printing;

ghost use Rattle.std.specs.Prelude.{◌≡◌};
ghost use Rattle.model.specs.Passes.{Passes};

use arena::{Key, List, Rank, Slot};
use printing::{ByKey, ByRank, Precursors};
use visitor::{IndexVisitor, OrdIndexVisitor, Traverse};

fn first_list(w: &[u32]) -> List<'_>
    requires { Passes w.now }
    ensures { (result.words.now ≡ w.now) × (result.head.0 ≡ 0) }
{
    let levels = arena::header(w, arena::LEVELS_WORD) as usize;
    List::new(w, levels, Slot(0))
}

fn by_key(rt: &impl Print, list: List, key: Key, allowance: u32) {
    let (w, m) = (list.words, list.levels);
    let v = OrdIndexVisitor::new(list.head, m, key, allowance);
    let found = ByKey(key_walk::search(list, key, allowance));
    let _ = println!(rt; "search {key}: {found}");
    let _ = println!(rt; "  given back: {}", ByKey::of(v.traversed(w, m), allowance));
    let _ = println!(rt; "  lent: {}", ByKey::of(v.lent(w, m), allowance));
    let _ = println!(rt; "  again: {}", ByKey::of(v.again(w, m), allowance));
}

// A visitor that ran out of comparisons goes on once it is given more.
fn given_more(rt: &impl Print, list: List, key: Key, allowance: u32, more: u32) {
    let (w, m) = (list.words, list.levels);
    let v = OrdIndexVisitor::new(list.head, m, key, allowance);
    let u = OrdIndexVisitor {
        left: more,
        ..v.lent(w, m)
    };
    let _ = println!(rt; "  given more: {}", ByKey::of(u.lent(w, m), more));
}

fn by_rank(rt: &impl Print, list: List, target: Rank) {
    let (w, m) = (list.words, list.levels);
    let v = IndexVisitor::new(list.head, m, target);
    let r = rank_walk::by_rank(list, target);
    let end = ByRank(r.ended.map(|s| (s, target)));
    let _ = println!(rt; "rank {}: {end}, {}", target.0, Precursors(r.path, m));
    let _ = println!(rt; "  given back: {}", ByRank::from(v.traversed(w, m)));
    let _ = println!(rt; "  lent: {}", ByRank::from(v.lent(w, m)));
    let _ = println!(rt; "  again: {}", ByRank::from(v.again(w, m)));
}

fn keys(rt: &impl Print, list: List) {
    for key in [5, 20, 25, 30, 31] {
        by_key(rt, list, key, 100);
    }
    by_key(rt, list, 25, 5);
    by_key(rt, list, 25, 4);
    given_more(rt, list, 25, 4, 5)
}

fn ranks(rt: &impl Print, list: List) {
    for target in [Rank::HEAD, Rank::FIRST, Rank(3), Rank(4), Rank(5)] {
        by_rank(rt, list, target);
    }
}

fn visit(rt: &impl Print, w: &[u32]) {
    if arena_check::check(w) {
        let list = first_list(w);
        keys(rt, list);
        ranks(rt, list);
    }
}

fn main(rt: HostRuntime) {
    let mut w = [0u32; 48];
    arena_of_q::write(&mut w);
    // What cannot be written is left out, and the status stays 0.
    let _ = visit(&rt, &w);
}
