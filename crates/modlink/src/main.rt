// modlink: packs depot modules into bundles, and shows what a bundle holds.
#![tactic(auto)]

mod inspect;
mod pack;
mod sample;

use anyhow::bail;
use std::env;
use std::process::ExitCode;

const HELP: &str = "\
modlink                                 packs a small bundle of its own and shows it
modlink inspect BUNDLE                  shows each module: place, key, kind and size, and for a list its names and values
modlink pack OUT [text|list KEY FILE].. writes a bundle of these files
modlink help                            shows this";

fn arguments(rt: &HostRuntime) -> anyhow::Result<Vec<String>> {
    Ok(env::args(rt)?.skip(1).collect(rt.alloc())?)
}

fn perform(rt: &HostRuntime, command: &str, rest: &[String]) -> anyhow::Result<()> {
    // A `match`, since the commands are few and each is one call; a table would have to hold functions.
    match command {
        "help" | "--help" | "-h" => println!(rt; "{HELP}")?,
        "inspect" => inspect::inspect_file(rt, rest)?,
        "pack" => pack::pack_files(rt, rest)?,
        _ => bail!("no command `{command}`; `modlink help` lists them"),
    }
    Ok(())
}

fn run(rt: &HostRuntime) -> anyhow::Result<()> {
    let args = arguments(rt)?;
    match args.as_slice() {
        [] => sample::show_sample(rt),
        [command, rest @ ..] => perform(rt, command.as_str(), rest),
    }
}

fn main(rt: HostRuntime) -> ExitCode {
    match run(&rt) {
        Ok(()) => ExitCode::SUCCESS,
        Err(e) => {
            let _ = eprintln!(rt; "modlink: {e}");
            ExitCode::FAILURE
        }
    }
}
