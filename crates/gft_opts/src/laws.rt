//! What holds of every text. A law is a function with an empty body; whoever calls it knows it.

ghost use Rattle.std.specs.Prelude.{◌≡◌, ℕ, List};
ghost use Rattle.gft_text.specs.Words.{FitsHostPort};
ghost use Rattle.gft_text.specs.declared.HostPort.{HostPort};
ghost use Rattle.gft_opts.specs.Retr.{FitsRetr, IsRetr, retr_text};
ghost use Rattle.gft_opts.specs.Targets.{FitsTargets, IsTargets, targets_text};
ghost use Rattle.gft_opts.specs.Part.{FitsEret, FitsEsto, IsEret, IsEsto, eret_text, esto_text};
ghost use Rattle.gft_opts.specs.declared.retr.RetrOptions.{RetrOptions};
ghost use Rattle.gft_opts.specs.declared.part.Eret.{Eret};
ghost use Rattle.gft_opts.specs.declared.part.Esto.{Esto};

use gft_text::HostPort;

/// Options that fit are read again from their text, only such are read, and no text is two.
pub fn retr_has_one_value()
    ensures written { (options : RetrOptions) →
        FitsRetr options → IsRetr (retr_text options) options }
    ensures fits { (text : List ℕ) (options : RetrOptions) →
        IsRetr text options → FitsRetr options }
    ensures one { (text : List ℕ) (a b : RetrOptions) → IsRetr text a → IsRetr text b → a ≡ b }
{}

/// An address is of four bytes and a port, whatever it is.
pub fn host_port_fits(at: &HostPort)
    ensures { FitsHostPort at.now }
{
    let [_a, _b, _c, _d] = at.host;
    let _port = at.port;
}

/// Targets that fit are read again from their text, only such are read, and no text is two.
pub fn targets_have_one_value()
    ensures written { (targets : List HostPort) →
        FitsTargets targets → IsTargets (targets_text targets) targets }
    ensures fits { (text : List ℕ) (targets : List HostPort) →
        IsTargets text targets → FitsTargets targets }
    ensures one { (text : List ℕ) (a b : List HostPort) →
        IsTargets text a → IsTargets text b → a ≡ b }
{}

/// A part that fits is read again from its text, only such are read, and no text is two.
pub fn eret_has_one_value()
    ensures written { (eret : Eret) → FitsEret eret → IsEret (eret_text eret) eret }
    ensures fits { (text : List ℕ) (eret : Eret) → IsEret text eret → FitsEret eret }
    ensures one { (text : List ℕ) (a b : Eret) → IsEret text a → IsEret text b → a ≡ b }
{}

/// A part that fits is read again from its text, only such are read, and no text is two.
pub fn esto_has_one_value()
    ensures written { (esto : Esto) → FitsEsto esto → IsEsto (esto_text esto) esto }
    ensures fits { (text : List ℕ) (esto : Esto) → IsEsto text esto → FitsEsto esto }
    ensures one { (text : List ℕ) (a b : Esto) → IsEsto text a → IsEsto text b → a ≡ b }
{}
