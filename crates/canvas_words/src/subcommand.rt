//! The commands of the program.

ghost use Rattle.std.specs.Prelude.{◌≡◌, ◌≢◌, IfSome, IfNone};
ghost use Rattle.canvas_words.specs.Options.{all, command_name, named_among};

/// A command of the program.
#[derive(Clone, Copy, Debug, PartialEq, Eq)]
pub enum Subcommand {
    Run,
    Turns,
    Normal,
    Check,
    Adapt,
    Graph,
    Page,
    Messages,
    Export,
    Keys,
    Collect,
}

impl Subcommand {
    /// All commands, in the order in which help names them.
    pub(crate) const ALL: [Subcommand; 11] = [
        Subcommand::Run,
        Subcommand::Turns,
        Subcommand::Normal,
        Subcommand::Check,
        Subcommand::Adapt,
        Subcommand::Graph,
        Subcommand::Page,
        Subcommand::Messages,
        Subcommand::Export,
        Subcommand::Keys,
        Subcommand::Collect,
    ];

    /// Returns its name.
    pub fn name<'a>(self) -> &'a str
        ensures { result.now ≡ command_name self }
    {
        match self {
            Subcommand::Run => "run",
            Subcommand::Turns => "turns",
            Subcommand::Normal => "normal",
            Subcommand::Check => "check",
            Subcommand::Adapt => "adapt",
            Subcommand::Graph => "graph",
            Subcommand::Page => "page",
            Subcommand::Messages => "messages",
            Subcommand::Export => "export",
            Subcommand::Keys => "keys",
            Subcommand::Collect => "collect",
        }
    }

    /// Returns the command of a name.
    pub fn named(name: &str) -> Option<Subcommand>
        ensures named { result ≡ named_among all name.now }
        ensures its_name { IfSome result (λ command. name.now ≡ command_name command) }
        ensures no_name { IfNone result
            ((command : Subcommand) → name.now ≢ command_name command) }
    {
        for command in Subcommand::ALL {
            if command.name() == name {
                return Some(command);
            }
        }
        None
    }
}
