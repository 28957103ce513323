// The four timers over runs of ticks, at their limits, and with each combination of inputs. Each line is a case: what it is
// given, what each tick gives, and the state that is left. host/timer_plain.c writes the same lines by other means.
#![tactic(auto)]

mod generator;
mod kinds;
mod limits;
mod line;
mod runs;
mod tables;

fn main(rt: HostRuntime) {
    tables::combinations(rt);
    limits::limits(rt);
    runs::runs(rt);
}
