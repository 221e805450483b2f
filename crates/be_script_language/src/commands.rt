//! The commands of scripts.
ghost use Rattle.std.specs.Prelude.{◌≡◌};
ghost use Rattle.be_script_language.specs.Request as spec;

/// A command: the first word of a line.
#[derive(Clone, Copy, Debug, PartialEq, Eq)]
pub enum Command {
    New,
    Drop,
    Set,
    Unset,
    MkIndex,
    RmIndex,
    Query,
    Page,
    Explain,
    Get,
    Attrs,
    Indices,
    Pin,
    Unpin,
    Live,
    Refresh,
    Begin,
    Commit,
    Abort,
}

/// The command with this name.
pub fn command_named(word: &str) -> Option<Command>
    ensures { result ≡ spec.command_named word.now }
{
    match word {
        "new" => Some(Command::New),
        "drop" => Some(Command::Drop),
        "set" => Some(Command::Set),
        "unset" => Some(Command::Unset),
        "mkindex" => Some(Command::MkIndex),
        "rmindex" => Some(Command::RmIndex),
        "query" => Some(Command::Query),
        "page" => Some(Command::Page),
        "explain" => Some(Command::Explain),
        "get" => Some(Command::Get),
        "attrs" => Some(Command::Attrs),
        "indices" => Some(Command::Indices),
        "pin" => Some(Command::Pin),
        "unpin" => Some(Command::Unpin),
        "live" => Some(Command::Live),
        "refresh" => Some(Command::Refresh),
        "begin" => Some(Command::Begin),
        "commit" => Some(Command::Commit),
        "abort" => Some(Command::Abort),
        _ => None,
    }
}
