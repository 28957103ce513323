// How a line of the class's tables is written.
use program::write_out;
use std::fmt;
use std::fmt::{Display, Formatter};

// Standard output, as a format writes on it: a piece that it does not take is told by `write_out`, and the next is tried.
#[derive(Drop)]
struct Pieces {
    rt: HostRuntime,
}

impl fmt::Write for Pieces {
    fn write_str(&mut self, piece: &str) -> fmt::Result {
        write_out(self.rt, piece.as_bytes());
        Ok(())
    }
}

pub(crate) fn say<D: Display + Drop>(rt: HostRuntime, text: D) {
    let _ = Formatter::new(Pieces { rt }).write(text);
}

// A column, of which each place is a piece.
#[derive(Drop)]
struct Places<'a, W> {
    out: &'a mut Formatter<W>,
}

impl<W: fmt::Write> fmt::Write for Places<'_, W> {
    fn write_str(&mut self, places: &str) -> fmt::Result {
        for place in places.chars() {
            self.out.write_char(place)?;
        }
        Ok(())
    }
}

pub(crate) fn write_places<W: fmt::Write, D: Display + Drop>(
    out: &mut Formatter<W>,
    number: D,
) -> fmt::Result {
    Formatter::new(Places { out }).write(number)
}

// The verdict on a line, and its end.
pub(crate) fn verdict(rt: HostRuntime, agrees: bool) {
    say(
        rt,
        if agrees {
            "   agrees\n"
        } else {
            "   DIFFERS\n"
        },
    );
}

// A line that says what should be so, and whether it is.
pub(crate) fn example(rt: HostRuntime, should: &str, is_so: bool) {
    say(rt, should);
    verdict(rt, is_so);
}

// A time in microseconds, as seconds.
#[derive(Clone, Copy)]
pub(crate) struct Seconds(pub(crate) u64);

impl Display for Seconds {
    fn fmt<W: fmt::Write>(&self, f: &mut Formatter<W>) -> fmt::Result {
        let time = self.0;
        write_places(
            f,
            format_args!("{:>4}.{:06}", time / 1000000, time % 1000000),
        )
    }
}

// A ratio in hundredths, as a multiple of the setting.
#[derive(Clone, Copy)]
pub(crate) struct Multiple(pub(crate) u32);

impl Display for Multiple {
    fn fmt<W: fmt::Write>(&self, f: &mut Formatter<W>) -> fmt::Result {
        let ratio = self.0;
        write_places(f, format_args!("{:>4}.{:02}", ratio / 100, ratio % 100))
    }
}

// A time in milliseconds, as seconds with the one to three places that were printed.
#[derive(Clone, Copy)]
pub(crate) struct Printed {
    pub(crate) milliseconds: u32,
    pub(crate) places: u32,
}

impl Display for Printed {
    fn fmt<W: fmt::Write>(&self, f: &mut Formatter<W>) -> fmt::Result {
        let seconds = self.milliseconds / 1000;
        let rest = self.milliseconds % 1000;
        match self.places {
            1 => write_places(f, format_args!("{seconds:>4}.{}  ", rest / 100)),
            2 => write_places(f, format_args!("{seconds:>4}.{:02} ", rest / 10)),
            _ => write_places(f, format_args!("{seconds:>4}.{rest:03}")),
        }
    }
}

impl Printed {
    // Whether a time in microseconds is this one, cut or rounded to its places.
    pub(crate) fn holds(self, microseconds: u64) -> bool {
        let last_place = match self.places {
            1 => 100000,
            2 => 10000,
            _ => 1000,
        };
        microseconds.abs_diff(self.milliseconds as u64 * 1000) < last_place
    }
}
