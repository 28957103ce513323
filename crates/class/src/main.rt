// The class examples, published curve points, pairs of recordings and the latest trips, run through the module and compared with what
// they should be.
#![tactic(auto)]

mod curves;
mod latest;
mod line;
mod pairs;
mod phases;
mod timers;

fn main(rt: HostRuntime) {
    curves::ansi_table(rt);
    curves::iec_points(rt);
    curves::ratios(rt);
    curves::power_table(rt);
    phases::phase_examples(rt);
    pairs::pairs_of_recordings(rt);
    latest::latest_trips(rt);
    timers::timer_examples(rt);
}
