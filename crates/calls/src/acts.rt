// What each item does, by its name and the numbers behind it.
use super::lines;
use items::Item;
use lent::Lent;
use ska::{Index, Slot};

// A call on the lent words, with its answer line.
fn call<P: Print>(out: &P, w: &mut [u32], item: Item, numbers: &[u32]) -> Option<()> {
    match (item, numbers) {
        (Item::Check, []) => lines::check(out, ska::check(w)),
        (Item::Dump, []) => lines::dump(out, w),
        (Item::Middle, &[a]) => lines::valued(out, ska::middle(w, Slot(a))),
        (Item::Clear, &[a]) => lines::plain(out, ska::clear(w, Slot(a))),
        (Item::Level, &[a]) => lines::plain(out, ska::level(w, Slot(a))),
        (Item::LinkMake, &[d]) => lines::valued(out, ska::link_make(d)),
        (Item::LinkRaise, &[d]) => lines::valued(out, ska::link_raise(d)),
        (Item::LinkLower, &[d]) => lines::valued(out, ska::link_lower(d)),
        (Item::Read, &[a, i]) => lines::valued(out, ska::read(w, Slot(a), Index(i))),
        (Item::RemoveKey, &[a, k]) => lines::valued(out, ska::remove_key(w, Slot(a), k)),
        (Item::RemoveAt, &[a, i]) => lines::valued(out, ska::remove_at(w, Slot(a), Index(i))),
        (Item::Truncate, &[a, n]) => lines::plain(out, ska::truncate(w, Slot(a), n)),
        (Item::Append, &[a, b]) => lines::plain(out, ska::append(w, Slot(a), Slot(b))),
        (Item::Setup, &[l, m, c]) => lines::plain(out, ska::set_up(w, l, m, c)),
        (Item::Search, &[a, k, most]) => lines::search(out, ska::search(w, Slot(a), k, most)),
        (Item::Insert, &[a, k, h]) => lines::plain(out, ska::insert(w, Slot(a), k, h)),
        (Item::SplitAt, &[a, b, i]) => {
            lines::plain(out, ska::split_at(w, Slot(a), Slot(b), Index(i)));
        }
        (Item::SplitKey, &[a, b, k]) => {
            lines::plain(out, ska::split_key(w, Slot(a), Slot(b), k));
        }
        _ => return None,
    }
    Some(())
}

// Any item. None if it is none: then nothing has changed.
pub fn item<const N: usize, P: Print>(
    out: &P,
    lent: &mut Lent<N>,
    name: u64,
    numbers: &[u32],
) -> Option<()> {
    match (items::item_of(name, numbers.len())?, numbers) {
        (Item::Words, _) => lent.given(numbers),
        (Item::New, &[n, v]) => lent.renew(n, v),
        (Item::Poke, &[i, v]) => lent::poke(&mut lent.words[..lent.len], i, v),
        (item, _) => call(out, &mut lent.words[..lent.len], item, numbers),
    }
}
