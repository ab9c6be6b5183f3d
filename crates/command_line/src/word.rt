//! The words of a command line that ask for tasks.

ghost use Rattle.std.specs.Prelude.{◌≡◌, IfOk, map};
ghost use Rattle.command_line.specs.Words.{name_of};

use clap::{Arg, Command};
use std::alloc::{AllocError, Global};

/// An argument of a task on the command line.
pub trait ToArg: Copy {
    /// The argument as `clap` reads it.
    fn to_arg<'a>(self, alloc: Global) -> Result<Arg<'a>, AllocError>;
}

/// A word that asks for a task, with its help and its arguments.
pub struct Word<A: 'static> {
    pub name: &'static str,
    pub about: &'static str,
    pub example: &'static str,
    pub arguments: &'static [A],
}

/// The tasks that these words ask for, in the words' order, as subcommands of a program.
pub fn tasks<'a, A: ToArg>(
    alloc: Global,
    words: &'static [Word<A>],
) -> Result<Vec<Command<'a>>, AllocError>
    ensures { IfOk result (λ tasks. map name_of tasks.items ≡ map (λ word. word.name.now) words.now) }
{
    let mut tasks = Vec::new(alloc);
    for word in words {
        tasks.push(task_of(alloc, word)?)?;
    }
    Ok(tasks)
}

/// The task of a word.
fn task_of<'a, A: ToArg>(alloc: Global, word: &Word<A>) -> Result<Command<'a>, AllocError>
    ensures { IfOk result (λ task. name_of task ≡ word.now.name.now) }
{
    let arguments = arguments_of(alloc, word.arguments)?;
    Command::new(alloc, word.name)
        .about(word.about)
        .after_help(word.example)
        .args(arguments)
}

/// The arguments of a task, in this order.
fn arguments_of<'a, A: ToArg>(alloc: Global, list: &[A]) -> Result<Vec<Arg<'a>>, AllocError> {
    let mut arguments = Vec::new(alloc);
    for &argument in list {
        arguments.push(argument.to_arg(alloc)?)?;
    }
    Ok(arguments)
}
