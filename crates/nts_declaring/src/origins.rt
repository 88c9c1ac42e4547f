//! Where candidates come from.
ghost use Rattle.std.specs.Prelude.{◌≡◌, ◌<◌, ◌≤◌, length, Some, slice_get};
ghost use Rattle.nts_declaring.specs.Origins.{origins_of};

/// Where a candidate for a goal comes from.
#[derive(Clone, Copy, Debug, PartialEq, Eq)]
pub enum Origin {
    /// The environment of the goal.
    Environment,
    /// The impl on the line of this number.
    Line(u64),
}

/// Where the candidate of this number comes from, of so many, if these are the lines of the impls of the goal's trait: an
/// environment's candidates stand before those of the impls.
pub fn origin_of(lines: &[u64], count: usize, number: usize) -> Origin
    requires within { number < count }
    requires all { length lines.now ≤ count }
    ensures { slice_get (origins_of count lines.now) number ≡ Some result }
{
    let of_environment = count - lines.len();
    if number < of_environment {
        Origin::Environment
    } else {
        Origin::Line(lines[number - of_environment])
    }
}
