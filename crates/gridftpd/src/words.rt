ghost use Rattle.std.specs.Prelude.{◌↔◌, IsTrue};
ghost use Rattle.gridftpd.specs.DrainWords.{AreDrainWords};

use gft_text::is_name;

/// Whether the words are `drain` and the name of a file. It takes no memory.
pub fn are_drain_words(words: &[String]) -> bool
    ensures { IsTrue result ↔ AreDrainWords words.now }
{
    match words {
        [verb, name] => verb.as_str() == "drain" && is_name(name.as_str().as_bytes()),
        _ => false,
    }
}
