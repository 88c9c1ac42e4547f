//! What is true of opening and closing.
ghost use Rattle.nts_placeholder.specs.Inverse.{ClosingGivesBack};
ghost use Rattle.nts_placeholder.specs.Knowing.{OpeningKeepsKnown, ClosingKeepsKnown};

/// Closing after opening gives the value back, where the universes that are then listed are distinct,
/// and the value holds no inference variable and no placeholder of one of them.
pub fn closing_gives_back()
    ensures given_back { ClosingGivesBack }
{}

/// What a table knows stays known when it is opened, in a universe that names the listed ones, and when
/// it is closed.
pub fn known_stays_known()
    ensures opened { OpeningKeepsKnown }
    ensures closed { ClosingKeepsKnown }
{}
