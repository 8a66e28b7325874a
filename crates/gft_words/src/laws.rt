//! What holds of all words. A law is a function with an empty body; whoever calls it knows it.

ghost use Rattle.std.specs.Prelude.{◌≡◌, ℕ, List};
ghost use Rattle.gft_words.specs.Make.{AreMakeWords};
ghost use Rattle.gft_words.specs.Serve.{AreServeWords};
ghost use Rattle.gft_words.specs.declared.client.ClientWords.{ClientWords};
ghost use Rattle.gft_words.specs.declared.server.ServerWords.{ServerWords};

/// No words of `serve` have two values.
pub fn server_words_have_one_value()
    ensures { (words : List (List ℕ)) (a b : ServerWords) →
        AreServeWords words a → AreServeWords words b → a ≡ b }
{}

/// No words of `make` have two values.
pub fn client_words_have_one_value()
    ensures { (words : List (List ℕ)) (a b : ClientWords) →
        AreMakeWords words a → AreMakeWords words b → a ≡ b }
{}
