// Reads a call script (docs/CALLS.md) on standard input and writes one answer line for each call.
#![tactic(auto)]

mod acts;
mod lines;

use lent::Lent;
use script_line::{Line, Runner, Script};

// The words that are lent, and where the answers go.
#[derive(Drop)]
struct Desk<'a, P> {
    out: &'a P,
    lent: Lent<262144>,
}

impl<P: Print> Runner for Desk<'_, P> {
    fn item(&mut self, name: u64, numbers: &[u32]) {
        if acts::item(self.out, &mut self.lent, name, numbers).is_none() {
            self.unknown();
        }
    }

    fn unknown(&mut self) {
        let _ = println!(self.out; "?");
    }
}

fn main(rt: HostRuntime) {
    let mut desk = Desk {
        out: &rt,
        lent: Lent {
            words: [0; 262144],
            len: 0,
        },
    };
    let mut script = Script {
        line: Line::new(),
        numbers: [0; 262144],
    };
    // An input that is still open after all turns is left.
    let _ = script.run(&mut rt.stdin(), &mut desk);
}
