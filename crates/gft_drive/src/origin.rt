ghost use Rattle.std.specs.Prelude.{ℕ, List, Option, None};
ghost use Rattle.gft_range.specs.declared.Range.{Range};
ghost use Rattle.gft_drive.specs.Origin.{Orders, AreFit, no_orders};

/// What the files of a drive's label are sent from, if that is known. It has no value at run
/// time: a caller that knows the source names it by a type, and learns that a stored file is equal.
pub trait Origin {
    /// The source's bytes for a drive's label, or nothing.
    ghost source: { List ℕ → Option (List ℕ) };

    /// For a label and a REST list, the order in which each lane sends its offsets, and its number
    /// of EODs.
    ghost orders: { List ℕ → List Range → Orders };

    /// Where there is a source, the orders are those of its senders, for each REST list.
    ghost fit: { AreFit source orders };
}

/// Names no source. The programs use it.
pub struct Unknown;

impl Origin for Unknown {
    ghost use Rattle.gft_drive.specs.Origin.{none_fits};

    ghost source = { λ _. None };

    ghost orders = { λ _ _. no_orders };

    ghost fit = { none_fits };
}
