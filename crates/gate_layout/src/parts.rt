//! The rows and columns of a layout, by what they are for.

ghost use Rattle.std.specs.Prelude.{◌≡◌, ◌<◌, ◌*◌, ◌^◌};
ghost use Rattle.gate_layout.specs.Placed.{part_of, column_of as column_at, row_of as row_at};

/// One of the six columns of a gate.
#[derive(Clone, Copy)]
pub(crate) enum Part {
    FirstPin,
    Body,
    SecondPin,
    Bend,
    Rise,
    Gap,
}

#[derive(Clone, Copy)]
pub(crate) enum Column {
    /// The first column or one of the last two.
    Outside,
    Of { gate: u32, part: Part },
}

#[derive(Clone, Copy)]
pub(crate) enum Row {
    TrackRow { track: u32 },
    /// The row below that of a track.
    Between { track: u32 },
    Pins,
    Bottom,
}

/// The side of a cell on which its feeder is.
#[derive(Clone, Copy)]
pub(crate) enum Side {
    North,
    East,
    South,
    West,
}

fn part_of(j: u32) -> Part
    ensures { result ≡ part_of j }
{
    match j {
        0 => Part::FirstPin,
        1 => Part::Body,
        2 => Part::SecondPin,
        3 => Part::Bend,
        4 => Part::Rise,
        _ => Part::Gap,
    }
}

pub(crate) fn column_of(gates: u32, col: u32) -> Column
    requires { 6 * gates < 2 ^ 32 }
    ensures { result ≡ column_at gates col }
{
    if col == 0 {
        Column::Outside
    } else if col - 1 < 6 * gates {
        Column::Of {
            gate: (col - 1) / 6,
            part: part_of((col - 1) % 6),
        }
    } else {
        Column::Outside
    }
}

pub(crate) fn row_of(tracks: u32, row: u32) -> Row
    requires { 2 * tracks < 2 ^ 32 }
    ensures { result ≡ row_at tracks row }
{
    if row < 2 * tracks {
        if row % 2 == 0 {
            Row::TrackRow { track: row / 2 }
        } else {
            Row::Between { track: row / 2 }
        }
    } else if row == 2 * tracks {
        Row::Pins
    } else {
        Row::Bottom
    }
}
