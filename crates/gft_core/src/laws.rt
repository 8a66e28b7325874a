//! Laws of lists of events, for proofs. The functions do nothing.

ghost use Rattle.gft_core.specs.Laws.{HonestLaw, PrefixLaw};
ghost use Rattle.gft_core.specs.Laws.{HeldLaw, ImageLaw, KeepsLaw, MarksLaw, RestartsLaw, DoneLaw};

/// If no crash is in the last generation and its answered blocks carry bytes of one source, a transfer
/// that is done has kept a front of it, and the whole if they cover it.
pub fn honest_law()
    ensures whole { HonestLaw }
    ensures front { PrefixLaw }
{}

/// Over crashes, for every legal list of events: behind a crash the kept bytes are what its image holds;
/// what a mark names is held in every later image of its generation, and a transfer may go on with it; a
/// STOR of honest senders that is done has kept the source.
pub fn crash_law()
    ensures held { HeldLaw }
    ensures image { ImageLaw }
    ensures keeps { KeepsLaw }
    ensures marks { MarksLaw }
    ensures restarts { RestartsLaw }
    ensures done { DoneLaw }
{}
