//! A program's command line, as its help shows it: the tables of both programs have these types.

use clap::{Arg, ArgAction, Command};
use std::alloc::{AllocError, Global};

/// A program.
#[derive(Clone, Copy)]
pub(crate) struct CommandLine {
    pub(crate) name: &'static str,
    pub(crate) about: &'static str,
    pub(crate) subcommands: &'static [Subcommand],
    /// What follows the options.
    pub(crate) after: &'static str,
}

/// A subcommand of a program.
#[derive(Clone, Copy)]
pub(crate) struct Subcommand {
    pub(crate) name: &'static str,
    pub(crate) about: &'static str,
    pub(crate) usage: &'static str,
    pub(crate) arguments: &'static [Argument],
    /// What follows the options.
    pub(crate) after: &'static str,
}

/// An argument of a subcommand.
#[derive(Clone, Copy)]
pub(crate) struct Argument {
    pub(crate) name: &'static str,
    pub(crate) form: Form,
    pub(crate) help: &'static str,
}

/// How an argument is written.
#[derive(Clone, Copy)]
pub(crate) enum Form {
    /// `--NAME VALUE`, with this name of the value.
    Option(&'static str),
    /// `--NAME`.
    Flag,
    /// A word alone, with this name, which must be there.
    Word(&'static str),
}

impl CommandLine {
    /// What clap prints about the program.
    pub(crate) fn help(&self, alloc: Global, version: &'static str) -> Result<String, AllocError> {
        let mut command = self.head(alloc, version);
        for subcommand in self.subcommands {
            command = command.subcommand(subcommand.head(alloc))?;
        }
        command.render_help()
    }

    // The program without its subcommands.
    fn head(&self, alloc: Global, version: &'static str) -> Command<'static> {
        Command::new(alloc, self.name)
            .version(version)
            .about(self.about)
            .subcommand_required(true)
            .after_help(self.after)
    }
}

impl Subcommand {
    /// What clap prints about the subcommand.
    pub(crate) fn help(&self, alloc: Global) -> Result<String, AllocError> {
        let mut command = self.head(alloc);
        for argument in self.arguments {
            command = command.arg(argument.as_clap(alloc))?;
        }
        command.render_help()
    }

    // The subcommand without its arguments.
    fn head(&self, alloc: Global) -> Command<'static> {
        Command::new(alloc, self.name)
            .about(self.about)
            .override_usage(self.usage)
            .after_help(self.after)
    }
}

impl Argument {
    fn as_clap(&self, alloc: Global) -> Arg<'static> {
        let arg = Arg::new(alloc, self.name).help(self.help);
        match self.form {
            Form::Option(value) => arg.long(self.name).value_name(value),
            Form::Flag => arg.long(self.name).action(ArgAction::SetTrue),
            Form::Word(value) => { arg.value_name(value).required(true).action(ArgAction::Set) }
        }
    }
}
