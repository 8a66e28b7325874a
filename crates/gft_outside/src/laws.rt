//! Laws of lanes and of their bytes, for proofs. The functions do nothing.

ghost use Rattle.gft_outside.specs.Laws.{CutsLaw, OneChannelLaw, PieceLaw, PieceOrderLaw};
ghost use Rattle.gft_outside.specs.Laws.{HonestFrontLaw, LanesLaw, TruthfulLaw};

/// What a lane's bytes tell doesn't hang on how they were cut; and a lane with one channel tells what its
/// stream tells.
pub fn arrivals_law()
    ensures cuts { CutsLaw }
    ensures one_channel { OneChannelLaw }
{}

/// A block of several bytes leaves kept what blocks of its single bytes leave, and follows a plan where
/// they do.
pub fn piece_law()
    ensures kept { PieceLaw }
    ensures order { PieceOrderLaw }
{}

/// An honest lane was honest at every moment, and a truthful one brings its source's bytes. What follows
/// a plan on a lane alone does so among the events of other lanes.
pub fn honest_lane_law()
    ensures front { HonestFrontLaw }
    ensures truthful { TruthfulLaw }
    ensures lanes { LanesLaw }
{}
