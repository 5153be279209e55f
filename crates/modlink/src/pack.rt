// Bundles from files.
use crate::inspect::read_file;
use anyhow::{anyhow, bail};
use bundle::{Entry, PayloadKind};
use std::fs;

const USAGE: &str =
    "pack takes a file to write and then, for each module, its kind, key and file: modlink pack OUT [text|list KEY FILE]..";

// A module to pack.
#[derive(Drop)]
struct Packed {
    kind: PayloadKind,
    key: String,
    payload: Vec<u8>,
}

impl Packed {
    fn entry(&self) -> Entry<'_> {
        Entry {
            kind: self.kind,
            key: self.key.as_bytes(),
            payload: self.payload.as_slice(),
        }
    }
}

// The module that three words name, with its file's contents.
fn load(rt: &HostRuntime, words: &[String]) -> anyhow::Result<Packed> {
    let [kind, key, file] = words else {
        bail!(USAGE);
    };
    let kind = kind.parse().map_err(|_| anyhow!(USAGE))?;
    let payload = read_file(rt, file.as_str())?;
    let key = key.clone()?;
    Ok(Packed { kind, key, payload })
}

// The modules that the arguments name, three words each.
fn gather(rt: &HostRuntime, args: &[String]) -> anyhow::Result<Vec<Packed>> {
    let mut all = Vec::new(rt.alloc());
    for words in args.chunks(3) {
        all.push(load(rt, words)?)?;
    }
    Ok(all)
}

fn write_bundle(rt: &HostRuntime, out: &str, all: &[Packed]) -> anyhow::Result<()> {
    let entries: Vec<Entry<'_>> = all.iter().map(Packed::entry).collect(rt.alloc())?;
    let bytes = bundle::write(rt.alloc(), &entries)?;
    fs::write(rt, out, &bytes).map_err(|e| anyhow!("cannot write {out}: {e}"))?;
    println!(rt; "{out}: {} bytes, modules: {}", bytes.len(), entries.len())?;
    Ok(())
}

pub(crate) fn pack_files(rt: &HostRuntime, args: &[String]) -> anyhow::Result<()> {
    let [out, rest @ ..] = args else {
        bail!(USAGE);
    };
    let all = gather(rt, rest)?;
    write_bundle(rt, out.as_str(), all.as_slice())
}
