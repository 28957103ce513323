// The shapes of the thirteen lines: what each field must be, and the refusal number of the line.
ghost use Rattle.std.specs.Prelude.{◌≡◌, ◌<◌};
ghost use Rattle.config.specs.device.Layout.{kept};
ghost use Rattle.config.specs.Shape.{line_count, shape_at};

use crate::refusals::{
    ANALOGUE, CHANNEL_COUNTS, DATE, FILE_TYPE, FREQUENCY, MULTIPLIER, NUMBER_OF_RATES, RATE,
    STATION, STATUS,
};
use fields::field::{Field, Whole};

const LINE_COUNT: usize = 13;

// The lines are numbered from 1.
pub(crate) const LAST_LINE: u32 = 13;

// What each field of a line must be, and the line's refusal number.
#[derive(Clone, Copy)]
pub(crate) struct Shape {
    pub number: u32,
    pub fields: &'static [Field],
}

// So many digits, and a value from one number to another.
macro_rules! whole {
    ($least:literal..=$most:literal, $low:literal..=$high:literal) => {
        Field::Whole(Whole {
            least: $least,
            most: $most,
            low: $low,
            high: $high,
        })
    };
}

// An analogue channel: index, name, phase, component, unit, a, b, skew, min, max, primary, secondary, P or S.
macro_rules! analogue {
    ($index:literal) => {
        Shape {
            number: ANALOGUE,
            fields: &[
                whole!(1..=6, $index..=$index),
                Field::Text(0, 64),
                Field::Text(0, 2),
                Field::Text(0, 64),
                Field::Text(1, 32),
                Field::Decimal(1),
                Field::Decimal(0),
                Field::Number,
                Field::Extreme,
                Field::Extreme,
                Field::Number,
                Field::Number,
                Field::PrimaryOrSecondary,
            ],
        }
    };
}

const SHAPES: [Shape; LINE_COUNT] = [
    // station, device, year
    Shape {
        number: STATION,
        fields: &[
            Field::Text(0, 64),
            Field::Text(0, 64),
            whole!(4..=4, 1999..=1999),
        ],
    },
    // all channels, analogue ones, status ones
    Shape {
        number: CHANNEL_COUNTS,
        fields: &[
            whole!(1..=7, 4..=4),
            Field::Channels(3, b'A'),
            Field::Channels(1, b'D'),
        ],
    },
    analogue!(1),
    analogue!(2),
    analogue!(3),
    // the status channel: index, name, phase, component, normal state
    Shape {
        number: STATUS,
        fields: &[
            whole!(1..=6, 1..=1),
            Field::Text(0, 64),
            Field::Text(0, 2),
            Field::Text(0, 64),
            whole!(1..=1, 0..=1),
        ],
    },
    Shape {
        number: FREQUENCY,
        fields: &[Field::NumberOrNothing],
    },
    Shape {
        number: NUMBER_OF_RATES,
        fields: &[whole!(1..=3, 1..=1)],
    },
    // rate, last sample number
    Shape {
        number: RATE,
        fields: &[Field::Decimal(1000), whole!(1..=10, 1..=9999999999)],
    },
    // first sample
    Shape {
        number: DATE,
        fields: &[Field::Date, Field::Time],
    },
    // trigger
    Shape {
        number: DATE,
        fields: &[Field::Date, Field::Time],
    },
    Shape {
        number: FILE_TYPE,
        fields: &[Field::Ascii],
    },
    Shape {
        number: MULTIPLIER,
        fields: &[Field::Number],
    },
];

// Of the line at a place of the list: line 1 stands at 0.
pub(crate) fn shape_at(place: usize) -> Shape
    requires { place < line_count }
    ensures { kept result ≡ shape_at place }
{
    SHAPES[place]
}
