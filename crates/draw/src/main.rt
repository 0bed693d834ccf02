// Draws arenas. Each line on standard input is a form, `text` or `svg`, and the words of an arena, which is drawn in that form on standard output.
#![tactic(auto)]

mod blocks;
mod boxes;
mod cells;
mod marks;
mod rows;
mod sheet;
mod svg;

ghost use Rattle.std.specs.Prelude.{◌≡◌};
ghost use Rattle.draw.specs.Forms.{form_of};

use script_line::{Line, Runner, Script};

// The names of the forms. Numbers and not letters: so `script_line` reads a name, and `form_of` in specs/ spells each of them.
const TEXT: u64 = 661268;

const SVG: u64 = 20167;

#[derive(Clone, Copy)]
pub enum Form {
    Rows,
    Boxes,
}

// Draws each line's arena; what cannot be printed is left out.
#[derive(Drop)]
pub struct Drawer<'a, P: Print> {
    out: &'a P,
}

fn form_of(name: u64) -> Option<Form>
    ensures { result ≡ form_of name }
{
    match name {
        TEXT => Some(Form::Rows),
        SVG => Some(Form::Boxes),
        _ => None,
    }
}

fn drawn(out: &impl Print, form: Form, w: &[u32]) {
    if !arena_check::check(w) {
        let _ = println!(out; "the words do not pass the check: nothing to draw");
        return;
    }
    match form {
        Form::Rows => rows::arena(out, w),
        Form::Boxes => sheet::arena(out, w),
    }
}

impl<P: Print> Runner for Drawer<'_, P> {
    fn item(&mut self, name: u64, numbers: &[u32]) {
        match form_of(name) {
            Some(form) => drawn(self.out, form, numbers),
            None => self.unknown(),
        }
    }

    fn unknown(&mut self) {
        let _ = println!(self.out; "?");
    }
}

fn main(rt: HostRuntime) {
    let mut script = Script {
        line: Line::new(),
        numbers: [0; 262144],
    };
    // It ends with the input; that the turns run out first is nothing to draw.
    let _ = script.run(&mut rt.stdin(), &mut Drawer { out: &rt });
}
