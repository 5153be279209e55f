// What a bundle holds, line by line.
use anyhow::{anyhow, bail};
use bundle::{Entry, PayloadKind};
use names::Shown;
use std::fs;

// The names and values of a list, or its denial.
fn show_list(rt: &HostRuntime, place: usize, payload: &[u8]) -> anyhow::Result<()> {
    match list::read(rt.alloc(), payload) {
        Ok(module) => {
            for (cell, value) in module.record.cells.iter().zip(module.values.iter()) {
                println!(rt; "    {} = {value}", Shown(cell.name.as_bytes()))?;
            }
        }
        Err(fault) => println!(rt; "    {}", fault.at(place))?,
    }
    Ok(())
}

fn show_module(rt: &HostRuntime, place: usize, entry: &Entry<'_>) -> anyhow::Result<()> {
    println!(rt;
        "{place} {} {} {} bytes",
        Shown(entry.key),
        entry.kind,
        entry.payload.len()
    )?;
    match entry.kind {
        PayloadKind::Text => Ok(()),
        PayloadKind::List => show_list(rt, place, entry.payload),
    }
}

// Shows a bundle, or the denial that reading it gives.
pub(crate) fn show_bundle(rt: &HostRuntime, bytes: &[u8]) -> anyhow::Result<()> {
    match bundle::read(rt.alloc(), bytes) {
        Ok(entries) => {
            println!(rt;
                "bundle of {} bytes, modules: {}",
                bytes.len(),
                entries.len()
            )?;
            for (place, entry) in entries.iter().enumerate() {
                show_module(rt, place, entry)?;
            }
        }
        Err(denial) => println!(rt; "{denial}")?,
    }
    Ok(())
}

pub(crate) fn read_file(rt: &HostRuntime, path: &str) -> anyhow::Result<Vec<u8>> {
    fs::read(rt, path).map_err(|e| anyhow!("cannot read {path}: {e}"))
}

pub(crate) fn inspect_file(rt: &HostRuntime, args: &[String]) -> anyhow::Result<()> {
    let [path] = args else {
        bail!("inspect takes one bundle: modlink inspect BUNDLE");
    };
    let bytes = read_file(rt, path.as_str())?;
    show_bundle(rt, bytes.as_slice())
}
