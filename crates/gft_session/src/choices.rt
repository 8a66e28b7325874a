//! The rows of the table that ask nobody: a choice is kept, or is refused.

ghost use Rattle.std.specs.Prelude.{◌≡◌};
ghost use Rattle.gft_reply_kind.specs.Words.{HasText};
ghost use Rattle.gft_session.specs.Saying.{after_mode, after_pass, after_type, folder_reply, mode_reply};
ghost use Rattle.gft_session.specs.Saying.{pass_reply, protection_reply, structure_reply, type_reply};
ghost use Rattle.gft_session.specs.Settings.{state_of, with_options, without_list};

use crate::settings::{Login, Mode, Settings, TransferType};
use gft_opts::RetrOptions;
use gft_range::RangeSet;
use gft_reply_kind::ReplyKind;
use gft_text::Words;

/// USER (RFC 959, section 4.1.1): the login is undone, and a PASS line may follow.
pub(crate) fn name_user<L>(settings: &mut Settings<L>) -> ReplyKind
    ensures reply { result ≡ ReplyKind.PasswordPlease }
    ensures set { settings.new ≡ record settings.old { login = Login.Named } }
{
    settings.login = Login::Named;
    ReplyKind::PasswordPlease
}

/// PASS (RFC 959, section 4.1.1): any password is good behind a USER line.
pub(crate) fn pass<L>(settings: &mut Settings<L>) -> ReplyKind
    ensures reply { result ≡ pass_reply settings.old.login }
    ensures set { settings.new ≡ record settings.old { login = after_pass settings.old.login } }
    ensures text { HasText result }
{
    match settings.login {
        Login::Named => {
            settings.login = Login::In;
            ReplyKind::LoggedIn
        }
        Login::Nobody | Login::In => ReplyKind::UserFirst,
    }
}

/// TYPE (RFC 959, section 3.1.1).
pub(crate) fn set_type<L>(letter: u8, settings: &mut Settings<L>) -> ReplyKind
    ensures reply { result ≡ type_reply letter }
    ensures set { settings.new ≡ record settings.old {
      transfer_type = after_type letter settings.old.transfer_type;
    } }
    ensures text { HasText result }
{
    if letter == b'I' {
        settings.transfer_type = TransferType::Image;
        return ReplyKind::TypeImage;
    }
    if letter == b'A' {
        settings.transfer_type = TransferType::Ascii;
        return ReplyKind::TypeAscii;
    }
    ReplyKind::NoSuchType
}

/// MODE (RFC 959, section 3.4; GFD.20).
pub(crate) fn set_mode<L>(letter: u8, settings: &mut Settings<L>) -> ReplyKind
    ensures reply { result ≡ mode_reply letter }
    ensures set { settings.new ≡ record settings.old { mode = after_mode letter settings.old.mode } }
    ensures text { HasText result }
{
    if letter == b'E' {
        settings.mode = Mode::Extended;
        return ReplyKind::ModeExtended;
    }
    if letter == b'S' {
        settings.mode = Mode::Stream;
        return ReplyKind::ModeStream;
    }
    ReplyKind::NoSuchMode
}

/// STRU (RFC 959, section 3.1.2).
pub(crate) fn structure(letter: u8) -> ReplyKind
    ensures reply { result ≡ structure_reply letter }
    ensures text { HasText result }
{
    if letter == b'F' {
        return ReplyKind::StructureFile;
    }
    ReplyKind::NoSuchStructure
}

/// DCAU (GFD.20): data connections are never protected.
pub(crate) fn protection(letter: u8) -> ReplyKind
    ensures reply { result ≡ protection_reply letter }
    ensures text { HasText result }
{
    if letter == b'N' {
        return ReplyKind::NoProtection;
    }
    ReplyKind::OnlyNoProtection
}

/// CWD (RFC 959, section 4.1.1): there is one folder.
pub(crate) fn folder(path: &Words) -> ReplyKind
    ensures reply { result ≡ folder_reply path.now }
    ensures text { HasText result }
{
    match path.bytes() {
        [b'/'] => ReplyKind::FolderIsRoot,
        _ => ReplyKind::NoSuchFolder,
    }
}

/// OPTS RETR (GFD.20): what isn't named stays.
pub(crate) fn set_options<L>(options: RetrOptions, settings: &mut Settings<L>) -> ReplyKind
    ensures reply { result ≡ ReplyKind.OptionsSet }
    ensures set { state_of settings.new ≡ with_options (state_of settings.old) options }
{
    settings.layout = options.layout.unwrap_or(settings.layout);
    settings.parallel = options.parallel.unwrap_or(settings.parallel);
    ReplyKind::OptionsSet
}

/// REST (GFD.20): the list is kept for the next line that begins a transfer.
pub(crate) fn keep_list<L>(list: RangeSet, settings: &mut Settings<L>) -> ReplyKind
    ensures reply { result ≡ ReplyKind.RestNoted }
    ensures set { state_of settings.new ≡ record (state_of settings.old) { rest = list.ranges } }
{
    settings.rest = list;
    ReplyKind::RestNoted
}

/// The lines that begin a transfer drop the kept REST list, whatever the answer.
pub(crate) fn drop_list<L>(settings: &mut Settings<L>)
    ensures { state_of settings.new ≡ without_list (state_of settings.old) }
{
    settings.rest.clear();
}
