// The report's lines as bytes in a lent slice: the figures of a list, and how many lines were skipped.
#![tactic(auto)]

ghost use Rattle.std.specs.Prelude.{[], ◌∷◌, ◌+◌, ◌*◌, ◌≤◌, length};
ghost use Rattle.figures_text.specs.Texts.{decimal_of, spaced, shown, line_of, last_of, Put};
ghost use Rattle.figures_text.specs.Pages.{Puts};

use figures::Figures;

// A lent slice, and the place where the next bytes are put.
#[derive(Drop)]
struct Page<'a> {
    out: &'a mut [u8],
    at: usize,
}

impl Page<'_> {
    fn bytes(&mut self, more: &[u8])
        requires { self.old.at + length more.now ≤ length self.old.out.now }
        ensures { Puts more.now self.old self.new }
    {
        let end = self.at + more.len();
        self.out[self.at..end].copy_from_slice(more);
        self.at = end;
    }

    fn decimal(&mut self, n: u64)
        requires { self.old.at + length (decimal_of n) ≤ length self.old.out.now }
        ensures { Puts (decimal_of n) self.old self.new }
    {
        let mut digits = [0u8; 20];
        let k = io::decimal(n, &mut digits);
        self.bytes(&digits[..k]);
    }

    // A space and a key, or the sum of two, in at most 11 bytes.
    fn number(&mut self, n: u64)
        requires { (self.old.at + 11 ≤ length self.old.out.now) × (n ≤ 2 * 4294967295) }
        ensures put { Puts (spaced (n ∷ [])) self.old self.new }
        ensures upper_bound { self.new.at ≤ self.old.at + 11 }
    {
        self.bytes(b" ");
        self.decimal(n);
    }

    fn numbers(&mut self, ns: &[u32])
        requires { self.old.at + 11 * length ns.now ≤ length self.old.out.now }
        ensures put { Puts (spaced ns.now) self.old self.new }
        ensures upper_bound { self.new.at ≤ self.old.at + 11 * length ns.now }
    {
        for n in ns {
            self.number(u64::from(*n));
        }
    }

    // The figures of a list, or a 0 if it has no readings.
    fn show(&mut self, f: Figures)
        requires { (self.old.at + 66 ≤ length self.old.out.now) × (f.middle ≤ 2 * 4294967295) }
        ensures put { Puts (spaced (shown f)) self.old self.new }
        ensures upper_bound { self.new.at ≤ self.old.at + 66 }
    {
        if f.count == 0 {
            self.number(0);
            return;
        }
        self.numbers(&[f.count, f.smallest, f.largest, f.lower]);
        self.number(f.middle);
        self.number(u64::from(f.upper));
    }
}

// `line` and `last` take a slice and a place, and no page: they are public, and their clause `Put at .. out.old out.new result` may not change.

// The line of a list, in at most 77 bytes: 10 for its number, 66 for its figures, and the newline.
pub fn line(out: &mut [u8], at: usize, list: u32, f: Figures) -> usize
    requires { (at + 77 ≤ length out.old) × (f.middle ≤ 2 * 4294967295) }
    ensures put { Put at (line_of list f) out.old out.new result }
    ensures upper_bound { result ≤ at + 77 }
{
    let mut row = Page { out, at };
    row.decimal(u64::from(list));
    row.show(f);
    row.bytes(b"\n");
    row.at
}

// The last line, in at most 29 bytes.
pub fn last(out: &mut [u8], at: usize, skipped: u64) -> usize
    requires { at + 29 ≤ length out.old }
    ensures { Put at (last_of skipped) out.old out.new result }
{
    let mut page = Page { out, at };
    page.bytes(b"skipped ");
    page.decimal(skipped);
    page.bytes(b"\n");
    page.at
}
