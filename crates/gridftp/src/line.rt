ghost use Rattle.std.specs.Prelude.{◌≡◌};
ghost use Rattle.gridftp.specs.Line.{out_of_memory_text};

#[tactic(auto, unfolding(crate::specs::Line::out_of_memory_text))]
pub(crate) fn out_of_memory_line() -> &'static [u8]
    ensures { result.now ≡ out_of_memory_text }
{
    b"455 Out of memory.\n"
}
