ghost use Rattle.std.specs.Prelude.{IfOk, OnErr, IsOkUnless, MatchOption};
ghost use Rattle.gft_words.specs.Arguments.{texts};
ghost use Rattle.gft_words.specs.Make.{AreMakeWords, SaysMake};
ghost use Rattle.gft_words.specs.declared.client.ClientWords.{ClientWords};
ghost use Rattle.gft_words.specs.declared.error.WordsError.TheVariants as errors;

use crate::error::WordsError;
use crate::options::read_within;
use gft_base::read_decimal;
use std::alloc::Global;

/// The greatest size of a generated file, in bytes: 2^30.
pub const MAX_MADE: u64 = 1_073_741_824;

/// What `gridftp` is asked for.
#[derive(Clone, Copy, Debug, PartialEq, Eq)]
pub enum ClientWords {
    /// To transfer the generated file of this seed and size, in bytes, with itself.
    Make { seed: u64, size: u64 },
}

/// Reads `make SEED SIZE`. `Usage` where the words are others, those of `put`, `get` and `third` among
/// them, which are not built. These words take no memory.
pub fn read_client_words(_alloc: Global, words: &[String]) -> Result<ClientWords, WordsError>
    ensures value { IfOk result (AreMakeWords (texts words.now)) }
    ensures none { OnErr result ((value : ClientWords) → ¬ AreMakeWords (texts words.now) value) }
    ensures bad { IsOkUnless result errors.Usage }
{
    let [command, seed, size] = words else {
        return Err(WordsError::Usage);
    };
    if command.as_str() != "make" {
        return Err(WordsError::Usage);
    }
    match make_words(seed.as_str().as_bytes(), size.as_str().as_bytes()) {
        Some(value) => Ok(value),
        None => Err(WordsError::Usage),
    }
}

/// What the two words behind `make` say.
fn make_words(seed: &[u8], size: &[u8]) -> Option<ClientWords>
    ensures { MatchOption result
        ((value : ClientWords) → ¬ SaysMake seed.now size.now value) (SaysMake seed.now size.now) }
{
    Some(ClientWords::Make {
        seed: read_decimal(seed)?,
        size: read_within(size, 0, MAX_MADE)?,
    })
}
