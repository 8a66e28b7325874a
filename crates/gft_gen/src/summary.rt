//! The seven lines that tell of a generated transfer. Each text stands here once.

ghost use Rattle.std.specs.Prelude.{◌≡◌, IfOk, Some, string_bytes};
ghost use Rattle.gft_gen.specs.Summary.{codes_text, equal_text, file_text, shape_text, summary_text};

use gft_generated::Generated;
use std::alloc::{AllocError, Global};
use std::fmt;

/// What the three attempts were answered, and whether the file is equal.
#[derive(Clone, Copy, Debug, PartialEq, Eq)]
pub(crate) struct Answers {
    pub(crate) first: u16,
    pub(crate) second: u16,
    pub(crate) third: u16,
    pub(crate) is_equal: bool,
}

/// The seven lines.
pub(crate) fn summary(
    alloc: Global,
    file: Generated,
    answers: Answers,
) -> Result<String, AllocError>
    ensures { IfOk result (λ text. string_bytes text ≡ summary_text file answers) }
{
    let file = FileLines(file);
    let shape = ShapeLines;
    let codes = CodesLine(answers);
    let equal = EqualLine(answers.is_equal);
    format!(in alloc; "{file}{shape}{codes}{equal}")
}

/// The lines of the seed and the size.
#[derive(Drop)]
struct FileLines(Generated);

impl fmt::Display for FileLines {
    ghost output = { λ x. Some (file_text x.0) };

    #[tactic(auto, unfolding(crate::specs::Summary::file_text))]
    fn fmt<W: fmt::Write>(&self, f: &mut fmt::Formatter<W>) -> fmt::Result {
        let Generated { seed, size } = self.0;
        write!(f, "seed {seed}\nsize {size}\n")
    }
}

/// The lines of stripes, channels and attempts.
#[derive(Drop)]
struct ShapeLines;

impl fmt::Display for ShapeLines {
    ghost output = { λ x. Some shape_text };

    #[tactic(auto, unfolding(crate::specs::Summary::shape_text))]
    fn fmt<W: fmt::Write>(&self, f: &mut fmt::Formatter<W>) -> fmt::Result {
        write!(f, "stripes 4\nchannels 16\nattempts 3\n")
    }
}

/// The line of the three codes.
#[derive(Drop)]
struct CodesLine(Answers);

impl fmt::Display for CodesLine {
    ghost output = { λ x. Some (codes_text x.0) };

    #[tactic(auto, unfolding(crate::specs::Summary::codes_text))]
    fn fmt<W: fmt::Write>(&self, f: &mut fmt::Formatter<W>) -> fmt::Result {
        let Answers {
            first,
            second,
            third,
            ..
        } = self.0;
        write!(f, "answers {first} {second} {third}\n")
    }
}

/// The line that says whether the file is equal.
#[derive(Drop)]
struct EqualLine(bool);

impl fmt::Display for EqualLine {
    ghost output = { λ x. Some (equal_text x.0) };

    #[tactic(auto, unfolding(crate::specs::Summary::equal_text))]
    fn fmt<W: fmt::Write>(&self, f: &mut fmt::Formatter<W>) -> fmt::Result {
        if self.0 {
            write!(f, "equal yes\n")
        } else {
            write!(f, "equal no\n")
        }
    }
}
