//! What holds of every stream. A law is a function with an empty body; whoever calls it knows it.

ghost use Rattle.std.specs.Prelude.{◌≡◌, ℕ, ◌<◌, List, [], ◌∷◌, ◌++◌, length, map};
ghost use Rattle.gft_text.specs.Words.{Told, Line};
ghost use Rattle.gft_reply.specs.declared.reply.Reply.{Reply};
ghost use Rattle.gft_reply.specs.declared.TheConstants.{LINE_COUNT_LIMIT};
ghost use Rattle.gft_reply.specs.Grammar.{IsReply};
ghost use Rattle.gft_reply.specs.HeardLines.{BeginsWith};
ghost use Rattle.gft_reply.specs.ReplyStream.{Heard, Replied, heard, nothing};

/// Lines that are one reply are heard as it, and nothing else is.
pub fn replies_are_of_lines()
    ensures heard { (lines : List (List ℕ)) (reply : Reply) (rest : List Told) →
        IsReply lines reply → length lines < LINE_COUNT_LIMIT →
        heard (map Line lines ++ rest) nothing ≡ Replied reply ∷ heard rest nothing }
    ensures only { (told : List Told) (reply : Reply) (later : List Heard) →
        heard told nothing ≡ Replied reply ∷ later → BeginsWith told reply later }
{}
