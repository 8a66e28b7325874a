//! What holds of every stream. Each law is a function with an empty body; whoever calls it knows it.

ghost use Rattle.std.specs.Prelude.{◌≡◌, ℕ, ◌+◌, ◌^◌, ◌<◌, List, [], ◌∷◌, ◌++◌, length, false, if◌then◌else◌};
ghost use Rattle.gft_eblock.specs.Arrival.{Arrival, Eof};
ghost use Rattle.gft_eblock.specs.declared.header.Header.{Header};
ghost use Rattle.gft_eblock.specs.declared.TheConstants.{HEADER_LEN};
ghost use Rattle.gft_eblock.specs.Header.{is_bad, is_eod, is_eof};
ghost use Rattle.gft_eblock.specs.Spelling.{spelling};
ghost use Rattle.gft_eblock.specs.Arrivals.{HasEnded, IsUnfinished, arrivals, blocks_from, data_at, end_or};
ghost use Rattle.gft_eblock.specs.Channel.{Reader, to_come, wanted};

/// A good block that is spelled out brings its total, its data and its EOD, and then what follows it.
pub fn one_block()
    ensures { (shift place : ℕ) (h : Header) (bytes rest : List ℕ)
        → h.count < 2 ^ 64 → h.offset < 2 ^ 64 → length bytes ≡ h.count → is_bad shift h ≡ false
        → blocks_from shift place (spelling h ++ (bytes ++ rest))
        ≡ (if is_eof h.flags then Eof h.offset ∷ [] else []) ++ (data_at (shift + h.offset) bytes
        ++ end_or (is_eod h.flags) (blocks_from shift (place + HEADER_LEN + h.count) rest)) }
{}

/// Behind an EOD or a bad block nothing is told.
pub fn nothing_after()
    ensures { (shift : ℕ) (a b : List ℕ) →
        HasEnded (arrivals shift a) → arrivals shift (a ++ b) ≡ arrivals shift a }
{}

/// Fewer bytes than a channel wants bring neither an EOD nor a bad block.
pub fn early()
    ensures { (reader : Reader) (bytes : List ℕ) →
        length bytes < wanted reader → IsUnfinished (to_come reader bytes) }
{}

/// What was told stays, whatever bytes follow.
pub fn grows()
    ensures { (shift : ℕ) (a b : List ℕ) →
        (more : List Arrival) × (arrivals shift (a ++ b) ≡ arrivals shift a ++ more) }
{}
