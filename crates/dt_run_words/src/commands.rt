//! The commands that the tool has, and their words.

ghost use Rattle.std.specs.Prelude.{◌≡◌, false, IfOk};
ghost use Rattle.clap.specs.Words.{app_of, rule_of};
ghost use Rattle.clap.specs.declared.builder.command.Command.{out-Command};
ghost use Rattle.dt_run_words.specs.Usages.{command_said, rule_of_word, with_commands, with_words};
ghost use Rattle.dt_run_words.specs.Words.{IsCommand, dtool};

use clap::{Arg, ArgAction, Command, value_parser};
use std::alloc::{AllocError, Global};

/// What the exit status means, at the end of each help.
const STATUSES: &str = "\
Each FILE, BASE and OVERLAY is the name of a file; the word stdin is standard input, which is read once.
A fault is told on standard error, as `dtool: input K: fault N Name at P`: inputs are counted from 0, and P is a byte's place.

Exit status:
  0  all was done
  1  an input has a fault, or can't be read, or the output can't be written
  2  the words are no command, or ask for help or the version";

/// What `--version` prints after the name: the version, and the identity of the logic that the proofs are checked in, as `rt version` prints it.
const VERSION: &str = "0.9.0 (proofs checked in logic dac8208d650f15bf)";

/// What the help of `dma` ends with.
const DMA_HELP: &str = "\
For example, the address 0x80000010 and 16 bytes:
  dtool dma board.dtb /soc/dma@0 2147483664 16
prints `0xADDRESS 0xSIZE whole`, or `cut` where not all of it is mapped.";

/// What the help of `spec` ends with.
const SPEC_HELP: &str = "\
For example, the GPIO of the second entry of `reset-gpios`:
  dtool spec board.dtb /soc/phy@0 reset-gpios gpio 1
prints `PROVIDER 0xCELL.. hops N`, behind N maps of connectors.";

/// How a word of a command is read.
#[derive(Clone, Copy)]
enum Kind {
    /// `--WORD`, which is there or not.
    Flag,
    /// A word that must be there.
    One,
    /// One that must be a number too.
    Number,
    /// As many as there are.
    Each,
}

/// A word of a command, with its help.
#[derive(Clone, Copy)]
struct Word<'a> {
    kind: Kind,
    id: &'a str,
    help: &'a str,
}

/// A command: what it does, what its help ends with, and its words.
#[derive(Clone, Copy)]
struct Usage<'a> {
    name: &'a str,
    about: &'a str,
    end: &'a str,
    words: &'a [Word<'a>],
}

/// The flag for hexadecimal.
const HEX: Word<'static> = Word {
    kind: Kind::Flag,
    id: "hex",
    help: "Write the blob as lower-case hexadecimal and a line feed",
};

/// The word for a blob's file.
const BLOB: Word<'static> = Word {
    kind: Kind::One,
    id: "FILE",
    help: "The blob; the word stdin is standard input",
};

/// The commands that the tool has.
const COMMANDS: &[Usage<'static>] = &[
    Usage {
        name: "compile",
        about: "Makes a blob of a devicetree source; of an overlay's, the object that is applied",
        end: STATUSES,
        words: &[
            HEX,
            Word {
                kind: Kind::Flag,
                id: "raw",
                help: "Take the source, no overlay's, as it stands: bookkeeping nodes may be written, and none is added",
            },
            Word {
                kind: Kind::One,
                id: "FILE",
                help: "The source; the word stdin is standard input",
            },
        ],
    },
    Usage {
        name: "apply",
        about: "Applies the objects of overlays to a base's blob, one after another",
        end: STATUSES,
        words: &[
            HEX,
            Word {
                kind: Kind::One,
                id: "BASE",
                help: "The blob of the base; the word stdin is standard input",
            },
            Word {
                kind: Kind::Each,
                id: "OVERLAY",
                help: "The blobs of the overlays' objects, in order",
            },
        ],
    },
    Usage {
        name: "build",
        about: "Makes a blob of a base's source with the overlays of other sources applied",
        end: STATUSES,
        words: &[
            HEX,
            Word {
                kind: Kind::One,
                id: "BASE",
                help: "The source of the base; the word stdin is standard input",
            },
            Word {
                kind: Kind::Each,
                id: "OVERLAY",
                help: "The sources of the overlays, in order",
            },
        ],
    },
    Usage {
        name: "print",
        about: "Prints a blob as the source that is compiled to its tree",
        end: STATUSES,
        words: &[BLOB],
    },
    Usage {
        name: "check",
        about: "Checks a blob, and counts what it holds",
        end: STATUSES,
        words: &[BLOB],
    },
    Usage {
        name: "regs",
        about: "Tells the CPU address and the size of each entry of `reg` in a blob; a line with a fault leaves the exit status 0",
        end: STATUSES,
        words: &[BLOB],
    },
    Usage {
        name: "irqs",
        about: "Tells the controller and the specifier of each interrupt in a blob; a line with a fault leaves the exit status 0",
        end: STATUSES,
        words: &[BLOB],
    },
    Usage {
        name: "dma",
        about: "Tells where an address that a device puts on its bus for DMA is on the root's bus",
        end: DMA_HELP,
        words: &[
            BLOB,
            Word {
                kind: Kind::One,
                id: "PATH",
                help: "The path of the device's node, such as /soc/dma@0",
            },
            Word {
                kind: Kind::Number,
                id: "ADDRESS",
                help: "The address on the device's bus, decimal",
            },
            Word {
                kind: Kind::Number,
                id: "SIZE",
                help: "The size in bytes, decimal",
            },
        ],
    },
    Usage {
        name: "spec",
        about: "Tells the provider of a specifier, such as that of a GPIO, a clock or a reset, and the specifier there",
        end: SPEC_HELP,
        words: &[
            BLOB,
            Word {
                kind: Kind::One,
                id: "PATH",
                help: "The path of the node that has the property",
            },
            Word {
                kind: Kind::One,
                id: "PROP",
                help: "The property, a list of phandles with specifiers",
            },
            Word {
                kind: Kind::One,
                id: "KIND",
                help: "The kind, as in #KIND-cells and KIND-map",
            },
            Word {
                kind: Kind::Number,
                id: "INDEX",
                help: "The index of the entry, from 0, decimal",
            },
        ],
    },
];

/// A word as clap reads it.
fn arg<'a>(alloc: Global, word: &Word<'a>) -> Arg<'a>
    ensures rule { rule_of result ≡ rule_of_word word.now }
    ensures own { result.global ≡ false }
{
    let arg = Arg::new(alloc, word.id).help(word.help);
    match word.kind {
        Kind::Flag => arg.long(word.id).action(ArgAction::SetTrue),
        Kind::One => arg.required(true),
        Kind::Number => arg.required(true).value_parser(value_parser!(u64)),
        Kind::Each => arg.action(ArgAction::Append),
    }
}

/// A command with its words.
fn with_words<'a>(
    alloc: Global,
    command: Command<'a>,
    words: &[Word<'a>],
) -> Result<Command<'a>, AllocError>
    requires { (out-Command command).has_globals ≡ false }
    ensures { IfOk result (IsCommand (with_words (app_of command.entry) words.now)) }
{
    let mut command = command;
    for word in words {
        command = command.arg(arg(alloc, word))?;
    }
    Ok(command)
}

/// A command.
fn command<'a>(alloc: Global, usage: &Usage<'a>) -> Result<Command<'a>, AllocError>
    ensures { IfOk result (IsCommand (command_said usage.now)) }
{
    let command = Command::new(alloc, usage.name)
        .about(usage.about)
        .after_help(usage.end);
    with_words(alloc, command, usage.words)
}

/// The tool with these commands.
fn with_commands<'a>(
    alloc: Global,
    tool: Command<'a>,
    usages: &[Usage<'a>],
) -> Result<Command<'a>, AllocError>
    ensures { IfOk result (λ whole. app_of whole ≡ with_commands (app_of tool.entry) usages.now) }
{
    let mut tool = tool;
    for usage in usages {
        tool = tool.subcommand(command(alloc, usage)?)?;
    }
    Ok(tool)
}

/// The tool, with its commands.
///
/// # Errors
///
/// Where memory is refused.
pub(crate) fn tool<'a>(alloc: Global) -> Result<Command<'a>, AllocError>
    ensures { IfOk result (λ command. app_of command ≡ dtool) }
{
    let tool = Command::new(alloc, "dtool")
        .about(
            "Compiles devicetree sources, applies overlays, and checks, prints and resolves blobs",
        )
        .after_help(STATUSES)
        .version(VERSION)
        .subcommand_required(true);
    with_commands(alloc, tool, COMMANDS)
}
