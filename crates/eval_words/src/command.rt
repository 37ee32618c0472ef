//! The command as `clap` reads it.

ghost use Rattle.std.specs.Prelude.{◌≡◌, IfOk};
ghost use Rattle.clap.specs.Words.{app_of};
ghost use Rattle.eval_words.specs.Command.{eval_app};

use clap::{Arg, Command};
use std::alloc::{AllocError, Global};

/// `--lang LANG --top NAME ROWS FILE...`, without flags for help and version.
pub fn command<'a>(alloc: Global) -> Result<Command<'a>, AllocError>
    ensures { IfOk result (λ c. app_of c ≡ eval_app) }
{
    let lang = Arg::new(alloc, "lang").long("lang").required(true);
    let top = Arg::new(alloc, "top").long("top").required(true);
    let rows = Arg::new(alloc, "ROWS").required(true);
    let files = Arg::new(alloc, "FILE").num_args(1..).required(true);
    Command::new(alloc, "sv2v_eval")
        .no_binary_name(true)
        .disable_help_flag(true)
        .disable_version_flag(true)
        .arg(lang)?
        .arg(top)?
        .arg(rows)?
        .arg(files)
}
