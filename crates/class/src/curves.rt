// The curve layer beside what was published of the curves.
use crate::line::{Multiple, Printed, Seconds, example, say, verdict};
use curve::{operate_time, reset_time};

fn name(operation: u32) -> &'static str {
    match operation {
        2 => "IEC Inv     ",
        3 => "IEC VeryInv ",
        4 => "IEC ExtInv  ",
        5 => "IEC LongInv ",
        _ => "ANSI ExtInv ",
    }
}

// A line of a table: the curve, the ratio, the time that the curve layer gives and the one that was printed.
fn compare(rt: HostRuntime, operation: u32, ratio: u32, time: u64, printed: Printed) {
    say(
        rt,
        format_args!(
            "{}{}  {}  {printed}",
            name(operation),
            Multiple(ratio),
            Seconds(time)
        ),
    );
}

// Source document 001's table 2-1, ANSI ExtInv: the ratio, the reset time in milliseconds, and its places.
const RESET_TIMES: [(u32, u32, u32); 9] = [
    (10, 29393, 3),
    (30, 31978, 3),
    (50, 38800, 1),
    (60, 45469, 3),
    (70, 57059, 3),
    (80, 80833, 3),
    (90, 153158, 3),
    (95, 298460, 2),
    (98, 734800, 1),
];

// The ratio and the operate time in milliseconds; where the print is known to be wrong, the right one.
const OPERATE_TIMES: [(u32, u32, Option<u32>); 11] = [
    (110, 134407, None),
    (150, 22682, None),
    (200, 9522, None),
    (300, 3647, None),
    (400, 2002, None),
    (500, 1297, None),
    (600, 1297, Some(927)),
    (700, 709, None),
    (800, 569, None),
    (900, 474, None),
    (1000, 407, None),
];

// The curve, the ratio and the operate time in milliseconds.
const IEC_TIMES: [(u32, u32, u32); 16] = [
    (2, 200, 10030),
    (2, 500, 4280),
    (2, 1000, 2970),
    (2, 2000, 2270),
    (3, 200, 13500),
    (3, 500, 3380),
    (3, 1000, 1500),
    (3, 2000, 710),
    (4, 200, 26670),
    (4, 500, 3330),
    (4, 1000, 810),
    (4, 2000, 200),
    (5, 200, 120000),
    (5, 500, 30000),
    (5, 1000, 13330),
    (5, 2000, 6320),
];

fn reset_line(rt: HostRuntime, ratio: u32, milliseconds: u32, places: u32) {
    let time = reset_time(9, ratio);
    let printed = Printed {
        milliseconds,
        places,
    };
    compare(rt, 9, ratio, time, printed);
    verdict(rt, printed.holds(time));
}

// Where the print is known to be wrong, it must be, and the right one is told.
fn operate_line(rt: HostRuntime, operation: u32, ratio: u32, printed: Printed, right: Option<u32>) {
    let time = operate_time(operation, ratio);
    compare(rt, operation, ratio, time, printed);
    let agrees = printed.holds(time);
    match right {
        Some(milliseconds) if !agrees => {
            let right = Printed {
                milliseconds,
                ..printed
            };
            say(rt, format_args!("   THE PRINT IS WRONG, right is{right}"));
            verdict(rt, right.holds(time));
        }
        Some(_) => verdict(rt, false),
        None => verdict(rt, agrees),
    }
}

// At the setting itself a sum neither grows nor falls, so that it never ends.
fn never(rt: HostRuntime, operation: u32) {
    say(
        rt,
        format_args!(
            "{}{}        never       1e5",
            name(operation),
            Multiple(100)
        ),
    );
    let gain = curve::gain_of(operation, 100);
    let loss = curve::loss_of(operation, 100);
    verdict(rt, gain == 0 && loss == 0);
}

// Source document 001, table 2-1, line by line.
pub(crate) fn ansi_table(rt: HostRuntime) {
    say(
        rt,
        "Source document 001, table 2-1, in seconds. A time agrees if it differs by less than one in the last printed place.\n",
    );
    say(rt, "curve          ratio         time   printed\n");
    say(rt, "reset, which the table prints with a minus sign\n");
    for (ratio, milliseconds, places) in RESET_TIMES {
        reset_line(rt, ratio, milliseconds, places);
    }
    say(
        rt,
        "(0.99999999 is no whole hundredth: the table's -1e5 there stands for never, and is not compared)\n",
    );
    say(rt, "operate\n");
    never(rt, 9);
    for (ratio, milliseconds, right) in OPERATE_TIMES {
        let printed = Printed {
            milliseconds,
            places: 3,
        };
        operate_line(rt, 9, ratio, printed, right);
    }
}

pub(crate) fn iec_points(rt: HostRuntime) {
    say(
        rt,
        "\nThe IEC curves at 2, 5, 10 and 20 times the setting\n",
    );
    for (operation, ratio, milliseconds) in IEC_TIMES {
        let printed = Printed {
            milliseconds,
            places: 2,
        };
        operate_line(rt, operation, ratio, printed, None);
    }
}

// The class examples on the ratio.
pub(crate) fn ratios(rt: HostRuntime) {
    say(
        rt,
        "\nThe ratio of the largest sample, 4294967295, at the largest start current, 3000\n",
    );
    let ratio = curve::ratio_of(4294967295, 3000);
    say(rt, format_args!("ratio       {}", Multiple(ratio)));
    verdict(rt, ratio == 2000);
}

// Whether X(m), as the curves read it, is what the constant table has, at each ratio.
fn reads_the_table() -> bool {
    (101..=2000).all(|ratio| powers::x_of(ratio) == powers::x_in_table(ratio))
}

pub(crate) fn power_table(rt: HostRuntime) {
    example(
        rt,
        "\nX(m), m from 101 to 2000, as the curves read it: the 1900 entries of the constant table",
        reads_the_table(),
    );
}
