//! What holds of every marker. A law is a function with an empty body; whoever calls it knows it.

ghost use Rattle.std.specs.Prelude.{◌≡◌, List};
ghost use Rattle.gft_range.specs.declared.Range.{Range};
ghost use Rattle.gft_reply.specs.declared.Reply.{Reply};
ghost use Rattle.gft_mark.specs.Markers.{IsPerfMarker, IsRangeMarker};
ghost use Rattle.gft_mark.specs.declared.perf.Perf.{Perf};

/// No reply is two markers.
pub fn markers_have_one_value()
    ensures ranges { (reply : Reply) (a b : List Range) →
        IsRangeMarker reply a → IsRangeMarker reply b → a ≡ b }
    ensures perf { (reply : Reply) (a b : Perf) →
        IsPerfMarker reply a → IsPerfMarker reply b → a ≡ b }
    ensures apart { (reply : Reply) (ranges : List Range) (perf : Perf) →
        IsRangeMarker reply ranges → ¬ IsPerfMarker reply perf }
{}
