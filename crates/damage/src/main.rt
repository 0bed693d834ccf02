// Breaks each clause of the check alone, then flips single bits all over: prints of each case its number, the clause, what was broken, and what the
// check says.
#![tactic(auto)]

mod arenas;
mod chains;
mod flips;
mod records;
mod sizes;
mod telling;

use arenas::Change::Full;
use telling::Line;

fn whole<R: Print>(line: &mut Line<'_, R>) {
    line.tell_each(&[
        ("three lists, list 2 empty, and three free slots", &[]),
        ("the first one with its free slots in list 2", &[Full]),
    ])
}

fn sizes_broken<R: Print>(line: &mut Line<'_, R>) {
    sizes::lengths(line);
    sizes::headers(line);
    sizes::lists(line);
    sizes::levels(line);
    sizes::nodes(line);
    sizes::exchanges(line)
}

fn chains_broken<R: Print>(line: &mut Line<'_, R>) {
    chains::steps(line);
    chains::last_nodes(line);
    chains::keys(line);
    chains::each_slot(line);
    chains::free_chain(line)
}

fn records_broken<R: Print>(line: &mut Line<'_, R>) {
    records::forms(line);
    records::links(line);
    records::above(line)
}

fn run(rt: &(impl Print + Drop)) {
    let mut line = Line::first(rt);
    whole(&mut line);
    sizes_broken(&mut line);
    chains_broken(&mut line);
    records_broken(&mut line);
    flips::all(rt)
}

fn main(rt: HostRuntime) {
    run(&rt);
}
