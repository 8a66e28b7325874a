ghost use Rattle.std.specs.Prelude.{◌≡◌, ◌≤◌, IfOk};
ghost use Rattle.gft_reply.specs.Words.{FitsReply, reply_text};
ghost use Rattle.gft_reply_kind.specs.Replies.{HasText, IsFixed, IsNegative, reply_of};

use crate::causes::failed;
use crate::lines::one_line;
use crate::refusals::{refused, unread};
use crate::values::{feature_lines, length_of, passive, striped, targets_set};
use gft_base::OutOfMemory;
use gft_command::CommandError;
use gft_library::LibraryError;
use gft_pass::Cause;
use gft_reply::Reply;
use gft_text::HostPort;
use std::alloc::Global;

/// What a server replies: to a line of its peer, at the begin and the end of a transfer, and where it ends
/// the conversation. The codes are those of RFC 959, section 4.2, and of the standards that are named.
#[derive(Drop)]
pub enum ReplyKind {
    /// 220: the server is ready for a peer that has just come.
    Greeting,
    /// 500, 501 or 455: the line is no command, for this reason.
    Unread(CommandError),
    /// 331, USER: PASS comes next.
    PasswordPlease,
    /// 230, PASS.
    LoggedIn,
    /// 503, PASS: no USER came before it.
    UserFirst,
    /// 221, QUIT.
    Goodbye,
    /// 200, NOOP.
    Done,
    /// 211, FEAT: the extensions, a line each (RFC 2389, section 3.2).
    Features,
    /// 530: the command wants a login.
    LogInFirst,
    /// 200, TYPE I.
    TypeImage,
    /// 200, TYPE A.
    TypeAscii,
    /// 504: another type.
    NoSuchType,
    /// 200, MODE E (GFD.20).
    ModeExtended,
    /// 200, MODE S.
    ModeStream,
    /// 504: another mode.
    NoSuchMode,
    /// 200, STRU F.
    StructureFile,
    /// 504: another structure.
    NoSuchStructure,
    /// 200, DCAU N (GFD.20): data connections are in the clear.
    NoProtection,
    /// 504: another DCAU.
    OnlyNoProtection,
    /// 200, SBUF (GFD.20): the size is noted, and not used.
    BufferNoted,
    /// 202, ALLO.
    AlloNotNeeded,
    /// 200, OPTS RETR (GFD.20).
    OptionsSet,
    /// 257, PWD.
    OnlyFolder,
    /// 250, CWD to `/`.
    FolderIsRoot,
    /// 550, CWD to another folder.
    NoSuchFolder,
    /// 425, PASV or SPAS: listening failed.
    CannotListen,
    /// 227, PASV: where the one lane listens.
    Passive(HostPort),
    /// 229, SPAS (GFD.20): where the lanes listen, in order, at most [`gft_opts::MAX_TARGETS`].
    Striped(Vec<HostPort>),
    /// 200, PORT or SPOR (GFD.20): so many addresses were named.
    TargetsSet(usize),
    /// 350, REST.
    RestNoted,
    /// 213, SIZE (RFC 3659, section 4): the length of a file in bytes.
    Length(u64),
    /// 250, DELE.
    Deleted,
    /// 553: the path writes no name of a file.
    BadName,
    /// 450, 451, 452, 455, 550 or 554: the library refuses, for this reason.
    Refused(LibraryError),
    /// 226: the transfer is done and the file is complete.
    Complete,
    /// 226, ESTO (GFD.20): the part is stored, and the file isn't complete by it.
    PartStored,
    /// 504: a transfer wants type I and mode E.
    SetTypeAndMode,
    /// 503, ESTO or ERET: a REST list doesn't go with a part.
    RestElsewhere,
    /// 503, STOR or ESTO: nothing listens.
    ListenFirst,
    /// 503, RETR or ERET: no target is named.
    TargetsFirst,
    /// 150: a transfer begins.
    Opening,
    /// 425, 426, 451, 452 or 455: the transfer ended without its file, for this cause.
    Failed(Cause),
    /// 226, ABOR: comes behind the 426 of the transfer that it ended.
    AbortDone,
    /// 504: the command isn't built in yet.
    NotBuilt,
    /// 225, ABOR: no transfer runs.
    NoTransfer,
    /// 455: memory was refused.
    OutOfMemory,
    /// 421: the peer was silent too long, and the conversation ends.
    Idle,
    /// 500: a line has too many bytes, and the conversation ends.
    TooLong,
}

impl ReplyKind {
    /// The bytes of the reply: its code, and each of its lines with CR and LF, as a peer reads them
    /// (RFC 959, section 4.2). `OutOfMemory` if they can't be allocated.
    pub fn text(&self, alloc: Global) -> Result<Vec<u8>, OutOfMemory>
        requires { HasText self.now }
        ensures { IfOk result (λ text. text.items ≡ reply_text (reply_of self.now)) }
    {
        let reply = self.reply(alloc)?;
        reply.write(alloc)
    }

    #[tactic(auto, unfolding(crate::specs::Replies::reply_of))]
    fn reply(&self, alloc: Global) -> Result<Reply, OutOfMemory>
        requires { HasText self.now }
        ensures reply { IfOk result (λ reply. reply ≡ reply_of self.now) }
        ensures fits { IfOk result FitsReply }
    {
        match self {
            ReplyKind::Unread(why) => unread(alloc, *why),
            ReplyKind::Features => feature_lines(alloc),
            ReplyKind::Passive(at) => passive(alloc, at),
            ReplyKind::Striped(places) => striped(alloc, places),
            ReplyKind::TargetsSet(count) => targets_set(alloc, *count),
            ReplyKind::Length(len) => length_of(alloc, *len),
            ReplyKind::Refused(why) => refused(alloc, *why),
            ReplyKind::Failed(cause) => failed(alloc, *cause),
            _ => self.fixed(alloc),
        }
    }

    /// A reply that no value goes into: here the positive ones (RFC 959, section 4.2.1).
    #[tactic(auto, unfolding(crate::specs::Replies::reply_of))]
    fn fixed(&self, alloc: Global) -> Result<Reply, OutOfMemory>
        requires { IsFixed self.now }
        ensures reply { IfOk result (λ reply. reply ≡ reply_of self.now) }
        ensures fits { IfOk result FitsReply }
    {
        match self {
            ReplyKind::Greeting => one_line(alloc, 220, b"GridFTP server ready."),
            ReplyKind::PasswordPlease => one_line(alloc, 331, b"Password please."),
            ReplyKind::LoggedIn => one_line(alloc, 230, b"Logged in."),
            ReplyKind::Goodbye => one_line(alloc, 221, b"Goodbye."),
            ReplyKind::Done => one_line(alloc, 200, b"Done."),
            ReplyKind::TypeImage => one_line(alloc, 200, b"Type I."),
            ReplyKind::TypeAscii => one_line(alloc, 200, b"Type A."),
            ReplyKind::ModeExtended => one_line(alloc, 200, b"Mode E."),
            ReplyKind::ModeStream => one_line(alloc, 200, b"Mode S."),
            ReplyKind::StructureFile => one_line(alloc, 200, b"Structure F."),
            ReplyKind::NoProtection => one_line(alloc, 200, b"DCAU N."),
            ReplyKind::BufferNoted => one_line(alloc, 200, b"Buffer size noted."),
            ReplyKind::AlloNotNeeded => one_line(alloc, 202, b"ALLO is not needed."),
            ReplyKind::OptionsSet => one_line(alloc, 200, b"Options set."),
            ReplyKind::OnlyFolder => one_line(alloc, 257, b"\"/\" is the only folder."),
            ReplyKind::FolderIsRoot => one_line(alloc, 250, b"Folder is /."),
            ReplyKind::RestNoted => one_line(alloc, 350, b"Restart list noted."),
            ReplyKind::Deleted => one_line(alloc, 250, b"Deleted."),
            ReplyKind::Complete => one_line(alloc, 226, b"Transfer complete."),
            ReplyKind::PartStored => one_line(alloc, 226, b"Part stored."),
            ReplyKind::Opening => one_line(alloc, 150, b"Opening data connections."),
            ReplyKind::AbortDone => one_line(alloc, 226, b"Abort processed."),
            ReplyKind::NoTransfer => one_line(alloc, 225, b"No transfer in progress."),
            _ => self.negative(alloc),
        }
    }

    /// The negative ones of these.
    #[tactic(auto, unfolding(crate::specs::Replies::reply_of))]
    fn negative(&self, alloc: Global) -> Result<Reply, OutOfMemory>
        requires fixed { IsFixed self.now }
        requires negative { IsNegative self.now }
        ensures reply { IfOk result (λ reply. reply ≡ reply_of self.now) }
        ensures fits { IfOk result FitsReply }
    {
        match self {
            ReplyKind::UserFirst => one_line(alloc, 503, b"USER first."),
            ReplyKind::LogInFirst => one_line(alloc, 530, b"Log in first."),
            ReplyKind::NoSuchType => one_line(alloc, 504, b"Type not supported."),
            ReplyKind::NoSuchMode => one_line(alloc, 504, b"Mode not supported."),
            ReplyKind::NoSuchStructure => one_line(alloc, 504, b"Structure not supported."),
            ReplyKind::OnlyNoProtection => one_line(alloc, 504, b"Only DCAU N."),
            ReplyKind::NoSuchFolder => one_line(alloc, 550, b"No such folder."),
            ReplyKind::CannotListen => one_line(alloc, 425, b"Cannot listen."),
            ReplyKind::BadName => one_line(alloc, 553, b"Bad name."),
            ReplyKind::SetTypeAndMode => one_line(alloc, 504, b"Set TYPE I and MODE E."),
            ReplyKind::RestElsewhere => one_line(alloc, 503, b"REST goes with STOR or RETR."),
            ReplyKind::ListenFirst => one_line(alloc, 503, b"SPAS or PASV first."),
            ReplyKind::TargetsFirst => one_line(alloc, 503, b"PORT or SPOR first."),
            ReplyKind::NotBuilt => one_line(alloc, 504, b"Not built."),
            ReplyKind::OutOfMemory => one_line(alloc, 455, b"Out of memory."),
            ReplyKind::Idle => one_line(alloc, 421, b"Idle, closing."),
            ReplyKind::TooLong => one_line(alloc, 500, b"Line too long."),
            _ => unreachable!(),
        }
    }
}
