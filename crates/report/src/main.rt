// Reads a shift's text, lines of `list key`, from the file that its argument names or from standard input, and writes the report once all is read.
// A text that cannot be read to its end, or a report that cannot be written, is told by one line on standard error.
#![tactic(auto)]

ghost use Rattle.std.specs.Prelude.{◌≤◌, length, take};
ghost use Rattle.io.specs.Counts.{IsPrefixLen};
ghost use Rattle.report.specs.Texts.{Begun, Whole};
ghost use Rattle.report.specs.Reads.{Took, TookAll};

use shift::Desk;
use std::env;
use std::fs::File;
use std::io::{Error, ErrorKind, Read, Write};

// A proved loop has to end, and nothing says that the input does: reads and bytes count up to this number, which no run reaches.
const MOST: u64 = u64::MAX - 65537;

// A fault of a read, which has been told.
#[derive(Clone, Copy)]
struct Told;

// A fault's text without the number that std writes behind it, as in "Is a directory (os error 21)".
fn text_of(said: &str) -> &str {
    said.split_once(" (os error ")
        .map_or(said, |(text, _)| text)
}

// Tells what failed, and why.
fn fail(rt: &HostRuntime, what: &str, why: &Error) {
    let said = format!(in rt.alloc(); "{why}");
    let text = match &said {
        Ok(said) => text_of(said.as_str()),
        Err(_) => "Cannot allocate memory",
    };
    let _ = eprintln!(rt; "report: {what}: {text}");
}

// A read that a signal broke off is made again.
fn fault(rt: &HostRuntime, name: &str, why: &Error) -> Result<(), Told> {
    if why.kind() == ErrorKind::Interrupted {
        return Ok(());
    }
    fail(rt, name, why);
    Err(Told)
}

// Takes what has arrived: how many reads and bytes that took, or none at the end of the text.
fn piece<R: Read>(
    rt: &HostRuntime,
    words: &mut [u32],
    desk: &mut Desk,
    from: &mut R,
    name: &str,
) -> Result<Option<u64>, Told>
    ensures { Took result desk.old words.old desk.new words.new }
{
    let mut buffer = io::large_buffer();
    let n = match from.read(&mut buffer) {
        Ok(n) => n,
        Err(e) => {
            fault(rt, name, &e)?;
            return Ok(Some(1));
        }
    };
    if n == 0 {
        return Ok(None);
    }
    *desk = shift::feed(words, *desk, &buffer[..n]);
    Ok(Some(n as u64 + 1))
}

// The text has not ended after so many reads and bytes.
#[derive(Clone, Copy)]
struct StillOpen {
    spent: u64,
}

// Takes piece after piece: the desk at the end of the text, if the end has come by MOST.
fn pieces<R: Read>(
    rt: &HostRuntime,
    words: &mut [u32],
    from: &mut R,
    name: &str,
) -> Result<Result<Desk, StillOpen>, Told>
    ensures { TookAll result words.old words.new }
{
    let mut desk = Desk::new();
    let mut spent: u64 = 0;
    // No `for`: a read counts by its bytes too, and `TookAll` promises that their number stays below 2^64.
    while spent < MOST {
        match piece(rt, words, &mut desk, from, name)? {
            Some(n) => spent += n,
            None => return Ok(Ok(desk)),
        }
    }
    Ok(Err(StillOpen { spent }))
}

// The end of the text: the report at the front of the slice, and its length.
fn text(words: &mut [u32], desk: Desk, out: &mut [u8]) -> usize
    requires { Begun desk words.old × (1261 ≤ length out.old) }
    ensures { IsPrefixLen result out.new × Whole (take result out.new) }
{
    let last = shift::finish(words, desk);
    shift::answer(words, last.skipped, out)
}

// Standard output gets whole reports alone.
fn write(rt: &HostRuntime, report: &[u8])
    requires { Whole report.now }
{
    let mut out = rt.stdout();
    if let Err(e) = out.write_all(report) {
        fail(rt, "standard output", &e);
    }
}

// A text that was read to its end is reported.
fn print(rt: &HostRuntime, words: &mut [u32], desk: Desk)
    requires { Begun desk words.old }
{
    let mut out = [0u8; shift::ROOM];
    let n = text(words, desk, &mut out);
    write(rt, &out[..n]);
}

// Reports on what is read. A fault is told by the name.
fn report<R: Read>(rt: &HostRuntime, from: &mut R, name: &str) {
    let mut words = [0u32; shift::WORDS];
    let _ = shift::set_up(&mut words);
    if let Ok(Ok(desk)) = pieces(rt, &mut words, from, name) {
        print(rt, &mut words, desk);
    }
}

fn named(rt: &HostRuntime, path: &str) {
    match File::open(rt, path) {
        Ok(mut file) => report(rt, &mut file, path),
        Err(e) => fail(rt, path, &e),
    }
}

fn main(rt: HostRuntime) {
    let mut words = match env::args(&rt) {
        Ok(words) => words,
        Err(e) => {
            fail(&rt, "the file's name", &e);
            return;
        }
    };
    let _ = words.next();
    let name = words.next();
    if words.next().is_some() {
        let _ = eprintln!(rt; "report: one file at a time");
        return;
    }
    match name {
        Some(path) => named(&rt, path.as_str()),
        None => report(&rt, &mut rt.stdin(), "standard input"),
    }
}
