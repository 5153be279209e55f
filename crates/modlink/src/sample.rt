// The built-in task: a small bundle is packed and shown.
use crate::inspect::show_bundle;
use bundle::{Entry, PayloadKind};

// crate = 12.5, pallet = 25, sack = undefined
const TARES: &[u8] =
    b"\x45crate\x40\x29\x00\x00\x00\x00\x00\x00\x46pallet\x40\x39\x00\x00\x00\x00\x00\x00\x04sack";

const RULES: &[u8] =
    b"import {crate, pallet} from \"./tares\";\nexport let load = crate + crate + pallet;\n";

// A list whose second entry repeats a name.
const SPOILED: &[u8] = b"\x01a\x01a";

pub(crate) fn show_sample(rt: &HostRuntime) -> anyhow::Result<()> {
    let entries = [
        Entry {
            kind: PayloadKind::List,
            key: b"hub/tares",
            payload: TARES,
        },
        Entry {
            kind: PayloadKind::Text,
            key: b"hub/rules",
            payload: RULES,
        },
        Entry {
            kind: PayloadKind::List,
            key: b"yard/tares",
            payload: SPOILED,
        },
    ];
    match bundle::write(rt.alloc(), &entries) {
        Ok(bytes) => show_bundle(rt, bytes.as_slice()),
        Err(denial) => {
            println!(rt; "{denial}")?;
            Ok(())
        }
    }
}
