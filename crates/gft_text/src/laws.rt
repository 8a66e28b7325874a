//! What holds of every text. Each law is a function with an empty body; whoever calls it knows it.

ghost use Rattle.std.specs.Prelude.{◌≡◌, ℕ, ◌<◌, ◌≤◌, ◌^◌, List, [], ◌∷◌, ◌++◌, length, decimal, None};
ghost use Rattle.std.specs.Str.Lines.{strip_carriage_return};
ghost use Rattle.gft_base.specs.Words.{Lacks, IsNumber, line_feed};
ghost use Rattle.gft_text.specs.Name.{IsName, WritesName, fault_of};
ghost use Rattle.gft_text.specs.HostPort.{IsHostPort, FitsHostPort, host_port_text};
ghost use Rattle.gft_text.specs.LineStream.{Line, Overlong, told};
ghost use Rattle.gft_text.specs.declared.host_port.HostPort.{HostPort};
ghost use Rattle.gft_text.specs.declared.TheConstants.{LINE_LIMIT};

/// Bytes and an LF are a line, and then comes what the rest tells.
pub fn one_line()
    ensures { (line rest : List ℕ) → Lacks line_feed line → length line < LINE_LIMIT →
        told (line ++ line_feed ∷ rest) ≡ Line (strip_carriage_return line) ∷ told rest }
{}

/// Too few bytes without an LF tell nothing.
pub fn no_line_yet()
    ensures { (bytes : List ℕ) → Lacks line_feed bytes → length bytes < LINE_LIMIT → told bytes ≡ [] }
{}

/// So many bytes without an LF are too long a line, whatever follows.
pub fn an_overlong_line()
    ensures { (bytes rest : List ℕ) → Lacks line_feed bytes → LINE_LIMIT ≤ length bytes →
        told (bytes ++ rest) ≡ Overlong ∷ [] }
{}

/// A number is read again from its decimal digits, and no text is two numbers.
pub fn numbers_have_one_value()
    ensures written { (n : ℕ) → n < 2 ^ 64 → IsNumber (decimal n) n }
    ensures one { (text : List ℕ) (m n : ℕ) → IsNumber text m → IsNumber text n → m ≡ n }
{}

/// A text without a slash has no fault exactly if it is a name. A name is read again as it
/// stands, and no text is two names.
pub fn names_have_one_value()
    ensures names { (name : List ℕ) → IsName name → fault_of name ≡ None }
    ensures faults { (name : List ℕ) → fault_of name ≡ None → IsName name }
    ensures written { (name : List ℕ) → IsName name → WritesName name name }
    ensures one { (text a b : List ℕ) → WritesName text a → WritesName text b → a ≡ b }
{}

/// An address is read again from its text, and no text is two addresses.
pub fn host_ports_have_one_value()
    ensures written { (at : HostPort) → FitsHostPort at → IsHostPort (host_port_text at) at }
    ensures one { (text : List ℕ) (a b : HostPort) →
        IsHostPort text a → IsHostPort text b → a ≡ b }
{}
