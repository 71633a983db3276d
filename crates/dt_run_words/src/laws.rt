//! A law of what words ask for.

ghost use Rattle.std.specs.Prelude.{List};
ghost use Rattle.clap.specs.Words.{Text};
ghost use Rattle.clap.specs.declared.error.Error.{Error};
ghost use Rattle.dt_run_words.specs.Words.{IsLine, WhyNoLine};
ghost use Rattle.dt_run_words.specs.declared.command_line.Line.{Line};
ghost use Rattle.dt_run_words.specs.declared.words.LineFault.TheVariants.{Words};

/// Words that ask for something have no fault of clap's.
pub fn one_line()
    ensures { (words : List Text) (line : Line) (error : Error) → IsLine words line → WhyNoLine words (Words error) → ⊥ }
{}
