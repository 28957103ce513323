// The program `grade WANTED`: two settings lines on standard input, upstream's first. On standard output a line for each ratio at
// which the margin between the two relays is below the wanted one, and the end line with the smallest margin; where a relay is
// refused the end line alone, and one line on standard error.
#![tactic(auto)]

mod asked;
mod input;

use asked::asked_margin;
use grading::margin::margin_at;
use grading::margins::{Graded, margins};
use grading::refusal::Relay;
use input::{RefusedRelay, Relays, read_relays};
use program::{print_line, say};
use words::say_reason;

// `end,COUNT,SMALLEST,RATIO,NUMBER`: answers whether all of it was taken.
fn print_end(rt: HostRuntime, graded: Graded) -> bool {
    let Graded {
        refusal,
        count,
        smallest,
        ratio,
    } = graded;
    let line = format_args!("end,{count},{smallest},{ratio},{}\n", refusal.number);
    print_line(rt, line)
}

// The end line, the relay's name and the reason.
fn refuse(rt: HostRuntime, refused: RefusedRelay) {
    let RefusedRelay { relay, refusal } = refused;
    let line = format_args!("end,0,0,0,{}\n", refusal.number);
    if !print_line(rt, line) {
        return;
    }
    say(
        rt,
        match relay {
            Relay::Upstream => b"upstream",
            Relay::Downstream => b"downstream",
        },
    );
    say_reason(rt, refusal);
}

fn grade(rt: HostRuntime, relays: Relays, wanted: i64) {
    let Relays {
        upstream,
        downstream,
    } = relays;
    let mut list = [0u32; Graded::RATIO_COUNT];
    let graded = margins(upstream, downstream, wanted, &mut list);
    if let Some(relay) = graded.refusal.relay {
        let refusal = rows::refuse(graded.refusal.number);
        refuse(rt, RefusedRelay { relay, refusal });
        return;
    }
    for ratio in list.iter().take(graded.count) {
        let margin = margin_at(upstream, downstream, *ratio);
        // `ratio,upstream,downstream,difference`
        let line = format_args!(
            "{ratio},{},{},{}\n",
            margin.upstream, margin.downstream, margin.difference
        );
        if !print_line(rt, line) {
            return;
        }
    }
    print_end(rt, graded);
}

fn main(rt: HostRuntime) {
    let Some(wanted) = asked_margin(rt) else {
        say(
            rt,
            b"failed: grade takes one wanted margin in ticks, 1 to 10 digits after an optional minus\n",
        );
        return;
    };
    match read_relays(rt) {
        Some(Ok(relays)) => grade(rt, relays, wanted),
        Some(Err(refused)) => refuse(rt, refused),
        None => {}
    }
}
